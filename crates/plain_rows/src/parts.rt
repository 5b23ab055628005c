use flow_types::text::Text;
use flow_types::value::Value;
use plain_full::hash::part_of;

#[test]
fn keys_have_their_parts(rt: HostRuntime) {
    let alloc = rt.alloc();
    let bob = String::from_str(alloc, "bob").expect(&rt, "no memory");
    let bob = Text::of(bob).expect(&rt, "too long");
    let mut tuple = Vec::new(alloc);
    tuple.push(Value::Long(-2)).expect(&rt, "no memory");
    tuple.push(Value::Str(bob)).expect(&rt, "no memory");
    tuple.push(Value::Bool(true)).expect(&rt, "no memory");
    let tuple = tuple.as_slice();
    assert_eq!(rt; part_of(&[], tuple, 4), 1);
    assert_eq!(rt; part_of(&[0, 1, 2], tuple, 32), 21);
    assert_eq!(rt; part_of(&[1], tuple, 32), 15);
    assert_eq!(rt; part_of(&[9], tuple, 32), 5);
}
