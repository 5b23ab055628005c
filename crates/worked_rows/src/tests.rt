use crate::job::{run_flink, run_plain};
use crate::plans::text_of;
use plan_check::check::plan_from;
use plan_need::need::{minimum, widest_record};
use std::test::Fail;

const USAGE: &str =
    "usage: flink_run check PLAN | need PLAN WORKERS | explain PLAN WORKERS SEGMENTS | run PLAN WORKERS SEGMENTS NAME=PATH... | drill NUMBER ROWS WORKERS SEGMENTS\n";

/// The rows of `flink_run`: the words, the files and how it ends. `/` ends a line.
const RUNTIME: &str = "run filter 1 21 t=t < t:1,ann/3,cy/2,bob/ => 0 2,bob/3,cy/
run filter 01 0016 t=t < t:1,ann/3,cy/2,bob/ => 0 2,bob/3,cy/
run longs 1 21 t=t < t:1/3/2/ => 0 2/3/
run longs 1 21 t=t < t: => 0 
run longs 1 21 t=t < t:2/9223372036854775807/-9223372036854775808/2/ => 0 2/2/9223372036854775807/
run short 1 21 t=t < t:1,an/3,cy/2,bob/ => 0 3,cy/
run pair 1 16 p=p < p:1,2/0,7/ => 0 0,7/1,2/
run filter 1 15 t=t < t:1,ann/3,cy/2,bob/ => 10 ! too few segments: need 16 have 15/
run filter 1 21 < t: => 12 ! input not bound: t/
run filter 1 21 t=t t=t < t: => 12 ! input not bound: t/
run filter 1 21 t=t u=t < t: => 12 ! input not bound: u/
run filter 1 21 t=none < t: => 5 ! read failed: input t/
run none 1 21 t=t < t: => 5 ! read failed: plan file/
run torn 1 21 t=t < t: => 3 ! plan refused: node 0: BadJson/
run cc 1 19 edges=e < e:1,2/2,3/4,5/ => 3 ! plan refused: node 2: NotBuilt/
check filter < t: => 0 plan ok: 2 nodes, widest record 30 bytes/
check cc < t: => 3 ! plan refused: node 2: NotBuilt/
check unknown < t: => 3 ! plan refused: node 2: UnknownName/
check kinds < t: => 3 ! plan refused: node 2: BadTypes/
need pair 1 < t: => 0 need 16/";

/// The words that `flink_run` doesn't take, line by line; none, too.
const UNTAKEN: &str = "run filter
--help
check filter 
need pair 4
run filter 2 21 t=t
run filter 1 0 t=t
run filter 1 65537 t=t
run filter 1 00000000021 t=t
run filter 1 21 t
run filter 1 21 =t
run filter 1 21 9=t
run -filter 1 21 t=t
";

/// Inputs of one Long that aren't of the first form, between blanks. `/` ends a line.
const REFUSED: &str = "1 1/2 +1/ / 1// 9223372036854775808/ 1,2/ -/ x/";

/// The rows of `plain_run`.
const PLAIN: &str = "filter t=t < t:1,ann/3,cy/2,bob/ => 0 2,bob/3,cy/
cc edges=e < e:1,2/2,3/4,5/ => 0 1,1/2,1/3,1/4,4/5,4/
loop x=x < x:1/ => 0 2/
loop x=x < x:200/ => 0 210/
outer a=a b=b < a:1,x/2,y/ b:2,7/3,8/ => 0 0,-,3,8/1,x,0,0/2,y,2,7/
left a=a b=b < a:1,x/2,y/ b:2,7/3,8/ => 0 x,0,0/y,2,7/
right a=a b=b < a:1,x/2,y/ b:2,7/3,8/ => 0 -,3,8/y,2,7/
twice p=p < p:1,2/ => 0 1,2/1,2/
both a=a b=b < a:1,10/1,20/2,5/ b:2,1/3,4/ => 0 1,30,0,-1/2,5,1,1/3,0,1,4/
words t=t < t:a/a\0/abcdefghijklmnopq/a/abcdefghijklmnopr/ => 0 1,2/2,1/17,1/17,1/
best t=t < t:1,5,d/1,5,b/1,5,c/1,5,a/ => 0 1,5,a/1,5,b/
swap init=i change=c < i:1,z/ c:1,a/1,b/ => 0 1,b/
orders customers=c orders=o < c:1,Ann,DE/2,Bob,FR/3,Lee,DE/ o:10,1,1250/11,3,400/12,2,999/13,1,50/ => 0 DE,1700,3/FR,999,1/
block a=a b=b < a:7,1/7,2/ b:7,1/7,2/7,3/ => 0 1,1/1,2/1,3/2,1/2,2/2,3/
joinsum a=a b=b < a:1,5/1,6/ b:1,7/ => 0 5,7/6,7/
joinsum a=a b=b < a: b: => 0 
sum x=x < x:9223372036854775807/1/ => 0 -9223372036854775808/
total x=x < x:9223372036854775807/1/ => 0 -9223372036854775808/
arith x=x < x:-9223372036854775808/ => 0 -9223372036854775808,0,-2/
check filter < t: => 2 ! usage: plain_run PLAN NAME=PATH.../
 < t: => 2 ! usage: plain_run PLAN NAME=PATH.../
unknown t=t < t: => 3 ! plan refused: node 2: UnknownName/
loop < x:1/ => 12 ! input not bound: x/
loop x=none < x:1/ => 5 ! read failed: input x/
both a=a b=b < a:1,10/ b:1/ => 4 ! input refused: b line 0 field 0: NotBuilt/";

#[test]
fn rows_of_the_runtime_end_as_told(rt: HostRuntime) -> Result<(), Fail> {
    for line in RUNTIME.lines() {
        let (row, want) = line.split_once(" => ").ok_or("no end")?;
        let (words, files) = row.split_once(" < ").ok_or("no files")?;
        let found = run_flink(&rt, rt.alloc(), words, files, 0, 1000)?;
        let wanted = want.replace(rt.alloc(), '/', "\n")?;
        assert_eq!(rt; found.as_str(), wanted.as_str(), "{words}");
    }
    Ok(())
}

#[test]
fn rows_of_the_plain_program_end_as_told(rt: HostRuntime) -> Result<(), Fail> {
    for line in PLAIN.lines() {
        let (row, want) = line.split_once(" => ").ok_or("no end")?;
        let (words, files) = row.split_once(" < ").ok_or("no files")?;
        let found = run_plain(rt.alloc(), words, files)?;
        let wanted = want.replace(rt.alloc(), '/', "\n")?;
        assert_eq!(rt; found.as_str(), wanted.as_str(), "{words}");
    }
    Ok(())
}

#[test]
fn other_words_and_inputs_are_refused(rt: HostRuntime) -> Result<(), Fail> {
    for words in UNTAKEN.split('\n') {
        let found = run_flink(&rt, rt.alloc(), words, "t:1/", 0, 1000)?;
        assert_eq!(rt; found.strip_prefix("2 ! "), Some(USAGE), "{words}");
    }
    for input in REFUSED.split(' ') {
        let files = format!(in rt.alloc(); "t:{input}")?;
        let found = run_flink(
            &rt,
            rt.alloc(),
            "run longs 1 21 t=t",
            files.as_str(),
            0,
            1000,
        )?;
        assert_eq!(rt;
            found.as_str(),
            "4 ! input refused: t line 0 field 0: NotBuilt\n",
            "{input}"
        );
    }
    Ok(())
}

#[test]
fn sinks_and_shelves_may_fail(rt: HostRuntime) -> Result<(), Fail> {
    let words = "run filter 1 21 t=t";
    let files = "t:1,ann/3,cy/2,bob/";
    for (failing, room, want) in [
        (0, 0, "8 ! write failed\n"),
        (0, 3, "8 2,b! write failed\n"),
        (0, 10, "8 2,bob\n3,cy! write failed\n"),
        (0, 11, "0 2,bob\n3,cy\n"),
        (1, 11, "5 ! read failed: plan file\n"),
        (2, 11, "5 ! read failed: plan file\n"),
        (3, 11, "5 ! read failed: plan file\n"),
        (4, 11, "5 ! read failed: input t\n"),
        (5, 11, "5 ! read failed: input t\n"),
        (6, 11, "5 ! read failed: input t\n"),
        (7, 11, "0 2,bob\n3,cy\n"),
    ] {
        let found = run_flink(&rt, rt.alloc(), words, files, failing, room)?;
        assert_eq!(rt; found.as_str(), want, "{failing} {room}");
    }
    Ok(())
}

#[test]
fn a_text_may_fill_a_record(rt: HostRuntime) -> Result<(), Fail> {
    let mut line = String::new(rt.alloc());
    for _ in 0..16_382 {
        line.push('x')?;
    }
    let files = format!(in rt.alloc(); "t:{line}/{line}/")?;
    let found = run_plain(rt.alloc(), "wide t=t", files.as_str())?;
    let wanted = format!(in rt.alloc(); "0 {line}\n")?;
    assert_eq!(rt; found.as_str(), wanted.as_str());
    Ok(())
}

#[test]
fn plans_have_their_sizes(rt: HostRuntime) -> Result<(), Fail> {
    let components = text_of("cc").ok_or("no plan")?;
    let plan = plan_from(rt.alloc(), components.as_bytes())
        .ok()
        .ok_or("refused")?;
    assert_eq!(rt; plan.nodes.len(), 11);
    assert_eq!(rt; widest_record(&plan), 24);
    let pair = text_of("pair").ok_or("no plan")?;
    let plan = plan_from(rt.alloc(), pair.as_bytes())
        .ok()
        .ok_or("refused")?;
    assert_eq!(rt; minimum(&plan, 4), 92);
    Ok(())
}
