ghost use Rattle.std.specs.Prelude.{IsTrue};
ghost use Rattle.flow_types.specs.Names.{is_name};

/// A name and the path that it is bound to, both in a word. The name has a name's form.
#[derive(Clone, Copy)]
pub struct NamedPath<'a> {
    pub name: &'a str,
    pub path: &'a str,
    ghost form: { IsTrue (is_name name.now) },
}
