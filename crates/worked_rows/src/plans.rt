/// The plans of the rows, with a blank line between two: a plan's name, and its text from the next line on.
pub const PLANS: &str = r#"filter
{"version":1,"segment":4096,"nodes":[
{"name":"t","op":"source","fields":["long","str:20"]},
{"name":"big","op":"filter","input":"t","test":["gt",["f",0],1]}
],"result":"big"}

longs
{"version":1,"segment":4096,"nodes":[
{"name":"t","op":"source","fields":["long"]},
{"name":"big","op":"filter","input":"t","test":["gt",["f",0],1]}
],"result":"big"}

short
{"version":1,"segment":4096,"nodes":[
{"name":"t","op":"source","fields":["long","str:20"]},
{"name":"two","op":"filter","input":"t","test":["and",["gt",["f",0],1],["eq",["len",["f",1]],2]]}
],"result":"two"}

unknown
{"version":1,"segment":4096,"nodes":[
{"name":"t","op":"source","fields":["long","str:20"]},
{"name":"big","op":"filter","input":"u","test":["gt",["f",0],1]}
],"result":"big"}

kinds
{"version":1,"segment":4096,"nodes":[
{"name":"t","op":"source","fields":["long","str:20"]},
{"name":"big","op":"filter","input":"t","test":["gt",["f",1],1]}
],"result":"big"}

torn
{"version":1

pair
{"version":1,"segment":4096,"nodes":[
{"name":"p","op":"source","fields":["long","long"]}
],"result":"p"}

cc
{"version":1,"segment":4096,"nodes":[
{"name":"edges","op":"source","fields":["long","long"]},
{"name":"both","op":"flat_map","input":"edges","rows":[{"when":true,"columns":[["f",0],["f",1]]},{"when":true,"columns":[["f",1],["f",0]]}]},
{"name":"ends","op":"map","input":"both","columns":[["f",0]]},
{"name":"verts","op":"distinct","input":"ends"},
{"name":"init","op":"map","input":"verts","columns":[["f",0],["f",0]]},
{"name":"cc","op":"delta","solution":"init","workset":"init","bind":"w","key":[0],"order":[[1,"desc"]],"merge":"greatest","max":100,"body":[
 {"name":"step","op":"join","left":"w","right":"both","left_key":[0],"right_key":[0],"columns":[["f",3],["f",1]]},
 {"name":"least","op":"group","input":"step","key":[0],"aggs":[["min",1]]},
 {"name":"seen","op":"probe","input":"least","key":[0],"columns":[["f",0],["f",1],["f",3]]},
 {"name":"won","op":"filter","input":"seen","test":["lt",["f",1],["f",2]]},
 {"name":"upd","op":"map","input":"won","columns":[["f",0],["f",1]]}],
 "delta":"upd","next":"upd"}
],"result":"cc"}

loop
{"version":1,"segment":4096,"nodes":[
{"name":"x","op":"source","fields":["long"]},
{"name":"it","op":"bulk","init":"x","bind":"s","max":10,"body":[
 {"name":"inc","op":"map","input":"s","columns":[["add",["f",0],1]]},
 {"name":"big","op":"filter","input":"inc","test":["gt",["f",0],100]}],
 "next":"inc","until":"big"}
],"result":"it"}

outer
{"version":1,"segment":4096,"nodes":[
{"name":"a","op":"source","fields":["long","str:5"]},
{"name":"b","op":"source","fields":["long","long"]},
{"name":"j","op":"join","left":"a","right":"b","left_key":[0],"right_key":[0],"kind":"full","left_default":[0,"-"],"right_default":[0,0],"columns":[["f",0],["f",1],["f",2],["f",3]]}
],"result":"j"}

twice
{"version":1,"segment":4096,"nodes":[
{"name":"p","op":"source","fields":["long","long"]},
{"name":"u","op":"union","inputs":["p","p"]}
],"result":"u"}

left
{"version":1,"segment":4096,"nodes":[
{"name":"a","op":"source","fields":["long","str:5"]},
{"name":"b","op":"source","fields":["long","long"]},
{"name":"j","op":"join","left":"a","right":"b","left_key":[0],"right_key":[0],"kind":"left","right_default":[0,0],"columns":[["f",1],["f",2],["f",3]]}
],"result":"j"}

right
{"version":1,"segment":4096,"nodes":[
{"name":"a","op":"source","fields":["long","str:5"]},
{"name":"b","op":"source","fields":["long","long"]},
{"name":"j","op":"join","left":"a","right":"b","left_key":[0],"right_key":[0],"kind":"right","left_default":[0,"-"],"columns":[["f",1],["f",2],["f",3]]}
],"result":"j"}

both
{"version":1,"segment":4096,"nodes":[
{"name":"a","op":"source","fields":["long","long"]},
{"name":"b","op":"source","fields":["long","long"]},
{"name":"c","op":"cogroup","left":"a","right":"b","left_key":[0],"right_key":[0],"left_aggs":[["sum",1]],"right_aggs":[["count"],["min",1,-1]]}
],"result":"c"}

words
{"version":1,"segment":4096,"nodes":[
{"name":"t","op":"source","fields":["str:40"]},
{"name":"g","op":"group","input":"t","key":[0],"aggs":[["count"]]},
{"name":"l","op":"map","input":"g","columns":[["len",["f",0]],["f",1]]}
],"result":"l"}

best
{"version":1,"segment":4096,"nodes":[
{"name":"t","op":"source","fields":["long","long","str:4"]},
{"name":"b","op":"top","input":"t","key":[0],"order":[[1,"asc"]],"count":2}
],"result":"b"}

swap
{"version":1,"segment":4096,"nodes":[
{"name":"init","op":"source","fields":["long","str:1000"]},
{"name":"change","op":"source","fields":["long","str:1000"]},
{"name":"it","op":"delta","solution":"init","workset":"change","bind":"w","key":[0],"order":[],"merge":"replace","max":5,"body":[
 {"name":"none","op":"filter","input":"w","test":false}],
 "delta":"w","next":"none"}
],"result":"it"}

orders
{"version":1,"segment":32768,"nodes":[
{"name":"customers","op":"source","fields":["long","str:40","str:2"]},
{"name":"orders","op":"source","fields":["long","long","long"]},
{"name":"j","op":"join","left":"customers","right":"orders","left_key":[0],"right_key":[1],"columns":[["f",2],["f",5]]},
{"name":"g","op":"group","input":"j","key":[0],"aggs":[["sum",1],["count"]]}
],"result":"g"}

block
{"version":1,"segment":4096,"nodes":[
{"name":"a","op":"source","fields":["long","long"]},
{"name":"b","op":"source","fields":["long","long"]},
{"name":"j","op":"join","left":"a","right":"b","left_key":[0],"right_key":[0],"columns":[["f",1],["f",3]]}
],"result":"j"}

joinsum
{"version":1,"segment":4096,"nodes":[
{"name":"a","op":"source","fields":["long","long"]},
{"name":"b","op":"source","fields":["long","long"]},
{"name":"j","op":"join","left":"a","right":"b","left_key":[0],"right_key":[0],"columns":[["f",1],["f",3]]},
{"name":"g","op":"group","input":"j","key":[0],"aggs":[["sum",1]]}
],"result":"g"}

sum
{"version":1,"segment":4096,"nodes":[
{"name":"x","op":"source","fields":["long"]},
{"name":"s","op":"group","input":"x","key":[],"aggs":[["sum",0]],"combine":true}
],"result":"s"}

total
{"version":1,"segment":4096,"nodes":[
{"name":"x","op":"source","fields":["long"]},
{"name":"s","op":"group","input":"x","key":[],"aggs":[["sum",0]],"combine":false}
],"result":"s"}

arith
{"version":1,"segment":4096,"nodes":[
{"name":"x","op":"source","fields":["long"]},
{"name":"m","op":"map","input":"x","columns":[["div",["f",0],-1],["div",["f",0],0],["rem",["f",0],3]]}
],"result":"m"}

wide
{"version":1,"segment":4096,"nodes":[
{"name":"t","op":"source","fields":["str:16382"]},
{"name":"d","op":"distinct","input":"t"}
],"result":"d"}"#;

/// The text of the plan with this name.
pub fn text_of(wanted: &str) -> Option<&'static str> {
    for plan in PLANS.split("\n\n") {
        if let Some((name, text)) = plan.split_once('\n') {
            if name == wanted {
                return Some(text);
            }
        }
    }
    None
}
