use flow_types::field_type::FieldType;
use flow_types::schema::Schema;
use plan_check::check::plan_from;
use plan_text::fault::PlanFault;
use std::alloc::Global;
use std::test::Fail;

/// The source that `$` stands for.
const SOURCE: &str = r#"{"name":"t","op":"source","fields":["long","long","str:4"]}"#;

/// The head of a bulk iteration, up to its body's nodes, that `@` stands for.
const BULK: &str = r#"{"name":"b","op":"bulk","init":"t","bind":"s","max":3,"body":["#;

/// The head of a delta iteration, up to its body's nodes, that `#` stands for.
const DELTA: &str =
    r##"{"name":"d","op":"delta","solution":"t","workset":"t","bind":"w","key":[0],"order":[[1,"desc"]],"merge":"greatest","max":100,"body":["##;

/// The sixteen folds that `*` stands for.
const FOLDS: &str =
    r#"["count"],["count"],["count"],["count"],["count"],["count"],["count"],["count"],["count"],["count"],["count"],["count"],["count"],["count"],["count"],["count"]"#;

/// The nodes after the source, and what comes of them: how many nodes there are, the bytes of the widest
/// record and the last node's fields; or the fault.
const NODES: &str = r#"{"name":"u","op":"distinct","input":"t"} => 2 22 LLS4
{"name":"u","op":"union","inputs":["t","t","t"]} => 2 22 LLS4
$ => 2 Duplicate
{"name":"b","op":"bulk","init":"t","bind":"t","max":1,"body":[],"next":"t"} => 2 Duplicate
{"name":"b","op":"bulk","init":"t","bind":"b","max":1,"body":[],"next":"t"} => 2 Duplicate
@{"name":"s","op":"distinct","input":"t"}],"next":"s"} => 3 Duplicate
@{"name":"b","op":"distinct","input":"t"}],"next":"s"} => 3 Duplicate
@{"name":"a","op":"distinct","input":"s"}],"next":"a"},{"name":"a","op":"distinct","input":"t"} => 4 Duplicate
@],"next":"s"},{"name":"s","op":"distinct","input":"t"} => 3 Duplicate
#],"delta":"w","next":"w"},@],"next":"s"},{"name":"c","op":"bulk","init":"t","bind":"w","max":1,"body":[],"next":"w"} => 4 Duplicate
@$],"next":"s"} => 3 Duplicate
@{"name":"a","op":"source","fields":["long"]}],"next":"s"} => 3 Misplaced
@{"name":"c","op":"bulk","init":"s","bind":"x","max":1,"body":[],"next":"x"}],"next":"s"} => 3 Misplaced
#{"name":"c","op":"bulk","init":"w","bind":"x","max":1,"body":[{"name":"p","op":"probe","input":"x","key":[0],"columns":[1]}],"next":"x"}],"delta":"w","next":"w"} => 3 Misplaced
@{"name":"c","op":"bulk","init":"s","bind":"x","max":1,"body":[{"name":"q","op":"zap"}],"next":"x"}],"next":"s"} => 4 BadNode
@{"name":"c","op":"bulk","init":"s","bind":"x","max":1,"body":[{"name":"q","op":"distinct","input":"x"}],"next":"x"}],"next":"s"},{"name":"e","op":"filter","input":"t","test":["zap"]} => 5 BadExpr
@{"name":"c","op":"bulk","init":"s","bind":"x","max":1,"body":[{"name":"q","op":"distinct","input":"x"}],"next":"x"}],"next":"s"} => 3 Misplaced
@{"name":"c","op":"bulk","init":"s","bind":"x","max":1,"body":[{"name":"t","op":"distinct","input":"x"}],"next":"x"}],"next":"s"} => 3 Misplaced
@{"name":"c","op":"bulk","init":"s","bind":"x","max":1,"body":[{"name":"q","op":"distinct","input":"x"}],"next":"x"}],"next":"s"},{"name":"q","op":"distinct","input":"t"} => 3 Misplaced
@{"name":"t","op":"bulk","init":"s","bind":"x","max":1,"body":[{"name":"q","op":"distinct","input":"x"}],"next":"x"}],"next":"s"} => 3 Duplicate
{"name":"p","op":"probe","input":"t","key":[0],"columns":[["f",0]]} => 2 Misplaced
@{"name":"p","op":"probe","input":"s","key":[0],"columns":[["f",0]]}],"next":"s"} => 3 Misplaced
#],"delta":"w","next":"w"},{"name":"p","op":"probe","input":"d","key":[0],"columns":[["f",0]]} => 3 Misplaced
#{"name":"p","op":"probe","input":"w","key":[0],"columns":[["f",4],["f",2]]}],"delta":"w","next":"w"} => 3 22 LS4
{"name":"a","op":"distinct","input":"a"} => 2 UnknownName
{"name":"a","op":"distinct","input":"z"},{"name":"z","op":"distinct","input":"t"} => 2 UnknownName
{"name":"a","op":"union","inputs":["t","z"]},{"name":"z","op":"distinct","input":"t"} => 2 UnknownName
{"name":"a","op":"join","left":"t","right":"z","left_key":[0],"right_key":[0],"columns":[1]} => 2 UnknownName
@{"name":"a","op":"distinct","input":"s"}],"next":"a"},{"name":"z","op":"distinct","input":"a"} => 4 UnknownName
@],"next":"s"},{"name":"z","op":"distinct","input":"s"} => 3 UnknownName
@{"name":"a","op":"distinct","input":"b"}],"next":"s"} => 3 UnknownName
@{"name":"a","op":"distinct","input":"z"},{"name":"z","op":"distinct","input":"s"}],"next":"s"} => 3 UnknownName
@{"name":"a","op":"distinct","input":"s"}],"next":"a"},#{"name":"z","op":"distinct","input":"a"}],"delta":"w","next":"w"} => 5 UnknownName
@],"next":"z"},{"name":"z","op":"distinct","input":"t"} => 2 UnknownName
@],"next":"b"} => 2 UnknownName
@],"next":"s","until":"z"} => 2 UnknownName
#],"delta":"z","next":"w"} => 2 UnknownName
#],"delta":"w","next":"z"} => 2 UnknownName
@{"name":"a","op":"map","input":"s","columns":[["f",0],["f",1],["f",2]]}],"next":"a","until":"t"} => 3 22 LLS4
{"name":"a","op":"map","input":"t","columns":[["f",3]]} => 2 BadField
{"name":"a","op":"group","input":"t","key":[0,3],"aggs":[]} => 2 BadField
{"name":"a","op":"top","input":"t","key":[],"order":[[3,"asc"]],"count":1} => 2 BadField
@{"name":"a","op":"group","input":"s","key":[],"aggs":[["sum",5]]}],"next":"s"} => 3 BadField
{"name":"a","op":"join","left":"t","right":"t","left_key":[0],"right_key":[0,1],"columns":[1]} => 2 BadField
{"name":"a","op":"join","left":"t","right":"t","left_key":[0],"right_key":[1],"columns":[["f",6]]} => 2 BadField
#{"name":"p","op":"probe","input":"w","key":[0,1],"columns":[1]}],"delta":"w","next":"w"} => 3 BadField
{"name":"a","op":"filter","input":"t","test":["f",0]} => 2 BadTypes
{"name":"a","op":"map","input":"t","columns":[["add",["f",2],1]]} => 2 BadTypes
{"name":"a","op":"group","input":"t","key":[],"aggs":[["sum",2]]} => 2 BadTypes
{"name":"a","op":"join","left":"t","right":"t","left_key":[0],"right_key":[2],"columns":[1]} => 2 BadTypes
{"name":"a","op":"join","left":"t","right":"t","left_key":[0],"right_key":[0],"columns":[1],"kind":"left","right_default":[1,true,"x"]} => 2 BadTypes
{"name":"a","op":"join","left":"t","right":"t","left_key":[0],"right_key":[0],"columns":[1],"kind":"left","right_default":[1,2,"wider"]} => 2 BadTypes
{"name":"a","op":"join","left":"t","right":"t","left_key":[0],"right_key":[0],"columns":[1],"kind":"left","right_default":[1,2,"four"]} => 2 22 L
{"name":"a","op":"map","input":"t","columns":[["f",0]]},{"name":"c","op":"union","inputs":["t","a"]} => 3 BadTypes
#{"name":"p","op":"probe","input":"w","key":[2],"columns":[1]}],"delta":"w","next":"w"} => 3 BadTypes
{"name":"a","op":"map","input":"t","columns":["x"]},{"name":"c","op":"map","input":"t","columns":["abcdefg"]},{"name":"e","op":"map","input":"t","columns":["abc"]},{"name":"u","op":"union","inputs":["a","c","e"]} => 5 22 S7
{"name":"a","op":"source","fields":["str:16382"]} => 2 16384 S16382
{"name":"a","op":"source","fields":["bool","str:16382"]} => 2 BadWidth
{"name":"a","op":"source","fields":["str:16382"]},{"name":"c","op":"map","input":"a","columns":[["cat",["f",0],""]]} => 3 16384 S16382
{"name":"a","op":"source","fields":["str:16382"]},{"name":"c","op":"map","input":"a","columns":[["len",["cat",["f",0],"x"]]]} => 3 BadWidth
{"name":"a","op":"group","input":"t","key":[],"aggs":[]} => 2 BadWidth
{"name":"a","op":"cogroup","left":"t","right":"t","left_key":[0],"right_key":[0],"left_aggs":[*],"right_aggs":[*]} => 2 BadWidth
{"name":"g","op":"group","input":"t","key":[0],"aggs":[["count"]]},{"name":"a","op":"cogroup","left":"t","right":"g","left_key":[0],"right_key":[0],"left_aggs":[*],"right_aggs":[["count"],["count"],["count"],["count"],["count"],["count"],["count"],["count"],["count"],["count"],["count"],["count"],["count"],["count"],["count"]]} => 3 256 LLLLLLLLLLLLLLLLLLLLLLLLLLLLLLLL
{"name":"a","op":"cogroup","left":"t","right":"t","left_key":[2],"right_key":[2],"left_aggs":[*],"right_aggs":[["count"]]} => 2 142 S4LLLLLLLLLLLLLLLLL
@{"name":"a","op":"map","input":"s","columns":[["f",0],["f",1],"wider"]}],"next":"a"} => 2 NoFit
@{"name":"a","op":"map","input":"s","columns":[["f",0],["f",1],"x"]}],"next":"a"} => 3 22 LLS1
#{"name":"a","op":"map","input":"w","columns":[["f",0]]}],"delta":"a","next":"w"} => 2 NoFit
#{"name":"a","op":"map","input":"w","columns":[["f",0]]}],"delta":"w","next":"a"} => 2 NoFit
{"name":"k","op":"map","input":"t","columns":[["f",0]]},{"name":"e","op":"delta","solution":"t","workset":"k","bind":"v","key":[0],"order":[],"merge":"replace","max":1,"body":[],"delta":"t","next":"v"} => 3 22 LLS4
{"name":"k","op":"map","input":"t","columns":[["f",0]]},{"name":"e","op":"delta","solution":"t","workset":"k","bind":"v","key":[0],"order":[],"merge":"replace","max":1,"body":[],"delta":"t","next":"t"} => 3 NoFit
{"name":"t","op":"probe","input":"z","key":[0],"columns":[1]} => 2 Duplicate
{"name":"p","op":"probe","input":"z","key":[0],"columns":[1]} => 2 Misplaced
{"name":"a","op":"map","input":"z","columns":[["add",["f",9],true]]} => 2 UnknownName
{"name":"a","op":"map","input":"t","columns":[["add",["f",0],true],["f",9]]} => 2 BadField
{"name":"a","op":"map","input":"t","columns":[["add",["f",0],true],["cat",["f",2],5]]} => 2 BadTypes
@],"next":"t","until":"z"} => 2 UnknownName
{"name":"a","op":"source","fields":["bool","str:16382"]},$ => 2 BadWidth
@{"name":"a","op":"map","input":"s","columns":[["f",0]]}],"next":"a"},$ => 2 NoFit
@{"name":"a","op":"map","input":"s","columns":[["f",3]]}],"next":"z"} => 3 BadField
@],"next":"z"},#{"name":"x","op":"distinct","input":"z"}],"delta":"w","next":"w"} => 2 UnknownName"#;

/// A result's name over the source and a bulk iteration, and what comes of it.
const RESULTS: &str = r#"t => 4 22 S4
b => 4 22 S4
z => 4 22 S4
a => 0 BadResult
s => 0 BadResult
x => 0 BadResult"#;

/// The nodes of connected components.
const COMPONENTS: &str = r#"{"name":"edges","op":"source","fields":["long","long"]},
{"name":"both","op":"flat_map","input":"edges","rows":[{"when":true,"columns":[["f",0],["f",1]]},{"when":true,"columns":[["f",1],["f",0]]}]},
{"name":"ends","op":"map","input":"both","columns":[["f",0]]},
{"name":"verts","op":"distinct","input":"ends"},
{"name":"t","op":"map","input":"verts","columns":[["f",0],["f",0]]},
#{"name":"step","op":"join","left":"w","right":"both","left_key":[0],"right_key":[0],"columns":[["f",3],["f",1]]},
{"name":"least","op":"group","input":"step","key":[0],"aggs":[["min",1]]},
{"name":"seen","op":"probe","input":"least","key":[0],"columns":[["f",0],["f",1],["f",3]]},
{"name":"won","op":"filter","input":"seen","test":["lt",["f",1],["f",2]]},
{"name":"upd","op":"map","input":"won","columns":[["f",0],["f",1]]}],"delta":"upd","next":"upd"}"#;

/// The text of fields: `L`, `B`, and `S` with its bound.
fn show_fields(shown: &mut String, schema: &Schema) -> Result<(), Fail> {
    for field in schema.fields() {
        match field {
            FieldType::Long => shown.push('L')?,
            FieldType::Bool => shown.push('B')?,
            FieldType::Str(bound) => write!(shown, "S{bound}")?,
        }
    }
    Ok(())
}

/// What comes of a plan's text.
fn answer(alloc: Global, text: &str) -> Result<String, Fail> {
    let mut shown = String::new(alloc);
    match plan_from(alloc, text.as_bytes()) {
        Ok(plan) => {
            let nodes = plan.nodes.as_slice();
            let mut widest = 0;
            for node in nodes {
                widest = widest.max(node.schema.max_bytes());
            }
            write!(shown, "{} {widest} ", nodes.len())?;
            if let Some(last) = nodes.last() {
                show_fields(&mut shown, &last.schema)?;
            }
        }
        Err(PlanFault::Refused { node, code }) => write!(shown, "{node} {code:?}")?,
        Err(PlanFault::Memory) => shown.push_str("memory")?,
    }
    Ok(shown)
}

/// A plan of these nodes, with the marks in their text expanded.
fn plan_of(alloc: Global, nodes: &str, last: &str) -> Result<String, Fail> {
    let mut text = String::from_str(alloc, r#"{"version":1,"nodes":["#)?;
    for mark in nodes.chars() {
        match mark {
            '$' => text.push_str(SOURCE)?,
            '@' => text.push_str(BULK)?,
            '#' => text.push_str(DELTA)?,
            '*' => text.push_str(FOLDS)?,
            other => text.push(other)?,
        }
    }
    write!(text, "],\"result\":\"{last}\"}}")?;
    Ok(text)
}

// The answers are those of the table of the checks' codes.
#[test]
fn plans_are_checked_or_refused(rt: HostRuntime) -> Result<(), Fail> {
    let alloc = rt.alloc();
    for line in NODES.lines() {
        let (nodes, want) = line.split_once(" => ").ok_or("no answer")?;
        let nodes = format!(in alloc; "$,{nodes}")?;
        let plan = plan_of(alloc, nodes.as_str(), "t")?;
        let found = answer(alloc, plan.as_str())?;
        assert_eq!(rt; found.as_str(), want, "{plan}");
    }
    for line in RESULTS.lines() {
        let (name, want) = line.split_once(" => ").ok_or("no answer")?;
        let nodes =
            r#"$,@{"name":"a","op":"distinct","input":"s"}],"next":"a"},{"name":"z","op":"map","input":"b","columns":[["f",2]]}"#;
        let plan = plan_of(alloc, nodes, name)?;
        let found = answer(alloc, plan.as_str())?;
        assert_eq!(rt; found.as_str(), want, "{plan}");
    }
    Ok(())
}

// Connected components have 11 nodes, and no record has more than 24 bytes.
#[test]
fn components_are_checked(rt: HostRuntime) -> Result<(), Fail> {
    let plan = plan_of(rt.alloc(), COMPONENTS, "d")?;
    let found = answer(rt.alloc(), plan.as_str())?;
    assert_eq!(rt; found.as_str(), "11 24 LL");
    Ok(())
}
