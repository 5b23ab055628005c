use plan_text::fault::PlanFault;
use plan_text::plan::read_plan;
use std::alloc::Global;
use std::test::Fail;

/// The source that `$` stands for in a text.
const SOURCE: &str =
    r#"{"name":"t","op":"source","fields":["long","bool","str:0"],"delimiter":"\t"}"#;

/// What stands round the nodes of a plan.
const PLAN: (&str, &str) = (r#"{"version":1,"nodes":["#, r#"],"result":"t"}"#);

/// What stands round the further nodes of a body within a body, whose first node is faulty.
const NEST: (&str, &str) = (
    r#"$,{"name":"b","op":"bulk","init":"t","bind":"s","max":1,"body":[{"name":"c","op":"bulk","init":"s","bind":"x","max":1,"body":[7"#,
    r#"],"next":"x"}],"next":"s"}"#,
);

/// What stands round the columns of node 2.
const MAP: (&str, &str) = (r#"$,{"name":"m","op":"map","input":"t","columns":["#, "]}");

/// Plans, and what is read of them.
const PLANS: &str = r#"{"version":1,"nodes":[$],"result":"t"} => 32768 t 1/0
{"version":1,"nodes":[$,{"name":"b","op":"bulk","init":"t","bind":"s","max":1,"body":[{"name":"c","op":"bulk","init":"s","bind":"x","max":1,"body":[{"name":"q","op":"distinct","input":"x"}],"next":"x"},{"name":"a","op":"distinct","input":"s"}],"next":"s"},{"name":"u","op":"distinct","input":"t"}],"result":"t"} => 32768 t 1/0 2/0 3/2 4/3 5/2 6/0
{"version":1,"segment":4096,"nodes":[$],"result":"t"} => 4096 t 1/0
{"version":2,"nodes":[7],"version":1,"nodes":[$],"result":"t"} => 32768 t 1/0
{"version":1,"segment":5000,"nodes":[$],"result":"t"} => 0 BadPlan
{"version":1,"segment":null,"nodes":[$],"result":"t"} => 0 BadPlan
{"version":2,"nodes":[$],"result":"t"} => 0 BadPlan
{"version":1.0,"nodes":[$],"result":"t"} => 0 BadPlan
{"version":1,"nodes":[],"result":"t"} => 0 BadPlan
{"version":1,"nodes":[7],"result":"9t"} => 0 BadPlan
{"version":1,"nodes":[$],"result":"t","more":1} => 0 BadPlan
[1] => 0 BadPlan
{"version":1,"nodes":[$],"result":"t" => 0 BadJson
{"version":1,"nodes":[$],"result":"\ud800"} => 0 BadJson
{"version":1,"nodes":[$],"result":"t"}, => 0 BadJson"#;

/// Lists of nodes.
const NODES: &str =
    r#"$,{"name":"b","op":"bulk","init":"t","bind":"s","max":3,"body":[$,$],"next":"t","until":"s"},$ => 32768 t 1/0 2/0 3/2 4/2 5/0
{"name":"b","op":"delta","solution":"t","workset":"t","bind":"s","key":[0],"order":[[0,"asc"]],"merge":"greatest","max":1,"body":[],"delta":"s","next":"s"} => 32768 t 1/0
$,{"name":"b","op":"bulk","init":"t","bind":"s","max":3,"body":[$,5],"next":"t"},5 => 4 BadNode
$,{"name":"b","op":"bulk","init":"t","bind":"s","max":3,"body":[$],"next":"t"},5 => 4 BadNode
$,{"name":"b","op":"bulk","body":[5,5]},5 => 2 BadNode
{"name":"9","op":"distinct","input":"t"},5 => 1 BadName
{"name":"a","op":"filter","input":"t","test":null},{"name":"9","op":"distinct","input":"t"} => 1 BadExpr"#;

/// Nodes.
const NODE: &str = r#"{"name":"m","op":"map","input":"t","columns":[["f",0],true,"x",-7]} => ok
{"name":"m","op":"filter","input":"t","test":["gt",["f",0],1]} => ok
{"name":"m","op":"flat_map","input":"t","rows":[{"when":true,"columns":[["f",0]]},{"when":1,"columns":[2]}]} => ok
{"name":"m","op":"union","inputs":["t","t"]} => ok
{"name":"abcdefghijklmnopqrstuvwxyz_01234","op":"distinct","input":"t"} => ok
{"name":"m","op":"group","input":"t","key":[],"aggs":[["count"],["sum",0],["min",0],["max",31,-5]],"combine":false} => ok
{"name":"m","op":"top","input":"t","key":[7,0],"order":[[0,"desc"]],"count":1000000} => ok
{"name":"m","op":"join","left":"t","right":"t","left_key":[0],"right_key":[0],"columns":[1]} => ok
{"name":"m","op":"join","left":"t","right":"t","left_key":[0],"right_key":[0],"columns":[1],"kind":"full","left_default":[0,"-"],"right_default":[]} => ok
{"name":"m","op":"cogroup","left":"t","right":"t","left_key":[0],"right_key":[0],"left_aggs":[],"right_aggs":[["count"]]} => ok
{"name":"m","op":"probe","input":"t","key":[0],"columns":["x"]} => ok
{"name":"m","op":"distinct"} => BadNode
{"name":"m","op":"distinct","input":"t","more":1} => BadNode
{"name":"m","op":"sort","input":"t"} => BadNode
{"name":"m","op":null,"input":"t"} => BadNode
{"name":"m","op":"source","fields":["str:16383"]} => BadNode
{"name":"m","op":"source","fields":["str:00000001"]} => BadNode
{"name":"m","op":"source","fields":["long"],"delimiter":null} => BadNode
{"name":"m","op":"union","inputs":["t"]} => BadNode
{"name":"m","op":"map","input":"t","columns":[]} => BadNode
{"name":"m","op":"flat_map","input":"t","rows":[{"when":null,"columns":[2]},{"when":1}]} => BadNode
{"name":"m","op":"top","input":"t","key":[0],"order":[],"count":0} => BadNode
{"name":"m","op":"top","input":"t","key":[0],"order":[],"count":1000001} => BadNode
{"name":"m","op":"top","input":"t","key":[0,0],"order":[],"count":1} => BadNode
{"name":"m","op":"top","input":"t","key":[32],"order":[],"count":1} => BadNode
{"name":"m","op":"top","input":"t","key":[1.0],"order":[],"count":1} => BadNode
{"name":"m","op":"top","input":"t","key":[],"order":[],"count":1e2} => BadNode
{"name":"m","op":"top","input":"t","key":[-0],"order":[],"count":1} => BadNode
{"name":"m","op":"probe","input":"t","key":[],"columns":["x"]} => BadNode
{"name":"m","op":"group","input":"t","key":[],"aggs":[["min",0,"x"]]} => BadNode
{"name":"m","op":"group","input":"t","key":[],"aggs":[["min",0,9223372036854775808]]} => BadNode
{"name":"m","op":"join","left":"t","right":"t","left_key":[0],"right_key":[0],"columns":[1],"left_default":[0]} => BadNode
{"name":"m","op":"join","left":"t","right":"t","left_key":[0],"right_key":[0],"columns":[1],"kind":"left"} => BadNode
{"name":"9","op":"filter","input":"t","test":null,"more":1} => BadNode
{"name":"9","op":"filter","input":"t","test":null} => BadName
{"name":null,"op":"distinct","input":"t"} => BadName
{"name":"m","op":"distinct","input":null} => BadName
{"name":"m","op":"union","inputs":["t",7]} => BadName
{"name":"abcdefghijklmnopqrstuvwxyz_012345","op":"distinct","input":"t"} => BadName
{"name":"m","op":"bulk","init":"t","bind":"s","max":1,"body":[],"next":"t","until":null} => BadName
{"name":"m","op":"flat_map","input":"t","rows":[{"when":null,"columns":[2]}]} => BadExpr
{"name":"m","op":"join","left":"t","right":"t","left_key":[0],"right_key":[0],"columns":[1],"kind":"left","right_default":[["f",0]]} => BadExpr"#;

/// Expressions.
const EXPR: &str = r#"["add",["sub",1,2],["mul",3,["div",4,["rem",5,-9223372036854775808]]]] => ok
["and",["or",["eq",1,2],["ne",1,2]],["not",["lt",["len",["cat","a","b"]],2]]] => ok
["if",["le",1,2],["cut","a",0],["cut","a",16382]],["gt",1,2],["ge",1,["f",31]] => ok
["f",32] => BadExpr
["f",0,0] => BadExpr
["f"] => BadExpr
["cut","a",16383] => BadExpr
["not"] => BadExpr
["more",1,2] => BadExpr
[["f",0],1,2] => BadExpr
[] => BadExpr
{} => BadExpr
null => BadExpr
1.0 => BadExpr
1e2 => BadExpr
-0 => BadExpr
9223372036854775808 => BadExpr"#;

/// What is read of a text: the segment, the result, and each node's number and home; or the fault.
fn answer(alloc: Global, text: &[u8]) -> Result<String, Fail> {
    let mut shown = String::new(alloc);
    match read_plan(alloc, text) {
        Ok(tree) => {
            write!(shown, "{} {}", tree.segment, tree.result.as_str())?;
            for node in tree.nodes.as_slice() {
                write!(shown, " {}/{}", node.number, node.home)?;
            }
        }
        Err(PlanFault::Refused { node, code }) => write!(shown, "{node} {code:?}")?,
        Err(PlanFault::Memory) => shown.push_str("memory")?,
    }
    Ok(shown)
}

/// A text with the source in the place of each `$`.
fn plain(alloc: Global, text: &str) -> Result<String, Fail> {
    let mut whole = String::new(alloc);
    let mut first = true;
    for part in text.split('$') {
        if !first {
            whole.push_str(SOURCE)?;
        }
        whole.push_str(part)?;
        first = false;
    }
    Ok(whole)
}

/// A plan of these nodes.
fn plan_of(alloc: Global, before: &str, nodes: &str, after: &str) -> Result<String, Fail> {
    let text = format!(in alloc; "{}{before}{nodes}{after}{}", PLAN.0, PLAN.1)?;
    plain(alloc, text.as_str())
}

/// So many copies of a text, one after the other.
fn copies(alloc: Global, text: &str, count: usize) -> Result<String, Fail> {
    let mut whole = String::new(alloc);
    for _ in 0..count {
        whole.push_str(text)?;
    }
    Ok(whole)
}

// The answers are those of the tables of plans, of members, of expressions and of reading codes.
#[test]
fn texts_are_read_or_refused(rt: HostRuntime) -> Result<(), Fail> {
    for line in PLANS.lines() {
        let (text, want) = line.split_once(" => ").ok_or("no answer")?;
        let text = plain(rt.alloc(), text)?;
        let found = answer(rt.alloc(), text.as_bytes())?;
        assert_eq!(rt; found.as_str(), want, "{text}");
    }
    for (before, table, after) in [("", NODES, ""), ("$,", NODE, ""), (MAP.0, EXPR, MAP.1)] {
        for line in table.lines() {
            let (text, want) = line.split_once(" => ").ok_or("no answer")?;
            let text = plan_of(rt.alloc(), before, text, after)?;
            let found = answer(rt.alloc(), text.as_bytes())?;
            let found = found.as_str();
            let same = match want {
                "ok" => found == "32768 t 1/0 2/0",
                _ => found == want || found.strip_prefix("2 ") == Some(want),
            };
            assert!(rt; same, "{text}: {found}");
        }
    }
    Ok(())
}

/// A map's column of 255 parts within 7 lists, within `more` lists.
fn column(alloc: Global, more: usize) -> Result<String, Fail> {
    let mut tree = String::from_str(alloc, "1")?;
    for _ in 0..7 {
        tree = format!(in alloc; "[\"add\",{tree},{tree}]")?;
    }
    within(alloc, tree.as_str(), more)
}

/// An expression within so many lists.
fn within(alloc: Global, inner: &str, lists: usize) -> Result<String, Fail> {
    let mut text = copies(alloc, "[\"len\",", lists)?;
    text.push_str(inner)?;
    text.push_str(copies(alloc, "]", lists)?.as_str())?;
    Ok(text)
}

// 256 parts and 257; 32 lists inside one another and 33.
#[test]
fn expressions_end_at_their_limits(rt: HostRuntime) -> Result<(), Fail> {
    let columns = [
        (column(rt.alloc(), 1)?, "32768 t 1/0 2/0"),
        (column(rt.alloc(), 2)?, "2 BadExpr"),
        (within(rt.alloc(), "1", 32)?, "32768 t 1/0 2/0"),
        (within(rt.alloc(), "1", 33)?, "2 BadExpr"),
        (copies(rt.alloc(), "1,", 31)?, "0 BadJson"),
        (
            format!(in rt.alloc(); "{}1", copies(rt.alloc(), "1,", 31)?)?,
            "32768 t 1/0 2/0",
        ),
        (
            format!(in rt.alloc(); "{}1", copies(rt.alloc(), "1,", 32)?)?,
            "2 BadNode",
        ),
    ];
    for (text, want) in columns {
        let plan = plan_of(rt.alloc(), MAP.0, text.as_str(), MAP.1)?;
        let found = answer(rt.alloc(), plan.as_bytes())?;
        assert_eq!(rt; found.as_str(), want, "{text}");
    }
    Ok(())
}

// 64 nodes and 65; 1,048,576 bytes and one more; 200 lists; and bytes that are no text.
#[test]
fn plans_end_at_their_limits(rt: HostRuntime) -> Result<(), Fail> {
    let alloc = rt.alloc();
    let faulty = copies(alloc, ",7", 63)?;
    let plan = plan_of(alloc, "$", faulty.as_str(), "")?;
    assert_eq!(rt; answer(alloc, plan.as_bytes())?.as_str(), "2 BadNode");
    let plan = plan_of(alloc, "$,7", faulty.as_str(), "")?;
    assert_eq!(rt; answer(alloc, plan.as_bytes())?.as_str(), "0 TooMany");

    let mut plan = plan_of(alloc, "", "$", "")?;
    let blanks = copies(alloc, " ", 1_048_576 - plan.len().min(1_048_576))?;
    plan.push_str(blanks.as_str())?;
    assert_eq!(rt; answer(alloc, plan.as_bytes())?.as_str(), "32768 t 1/0");
    plan.push(' ')?;
    assert_eq!(rt; answer(alloc, plan.as_bytes())?.as_str(), "0 TooBig");

    let lists = copies(alloc, "[", 200)?;
    assert_eq!(rt; answer(alloc, lists.as_bytes())?.as_str(), "0 BadJson");
    assert_eq!(rt;
        answer(alloc, b"\"\xff\"".as_slice())?.as_str(),
        "0 BadJson"
    );
    Ok(())
}

// Of nodes in a body within a body: 64 nodes with all bodies, and 65.
#[test]
fn nested_bodies_count(rt: HostRuntime) -> Result<(), Fail> {
    let alloc = rt.alloc();
    let nested = copies(alloc, ",7", 61)?;
    let plan = plan_of(alloc, NEST.0, nested.as_str(), NEST.1)?;
    assert_eq!(rt; answer(alloc, plan.as_bytes())?.as_str(), "0 TooMany");
    let nested = copies(alloc, ",7", 60)?;
    let plan = plan_of(alloc, NEST.0, nested.as_str(), NEST.1)?;
    assert_eq!(rt; answer(alloc, plan.as_bytes())?.as_str(), "4 BadNode");
    Ok(())
}
