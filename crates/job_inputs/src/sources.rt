ghost use Rattle.std.specs.Prelude.{IfOk, IfSome, IsTrue, ◌≡◌, [], filter, option_map, is_some};
ghost use Rattle.std.specs.Option.{option_copied};
ghost use Rattle.flow_types.specs.Names.{is_name};
ghost use Rattle.flow_model.specs.declared.plan.Node.{Node};
ghost use Rattle.flow_model.specs.Algebra.{is_source};
ghost use Rattle.job_words.specs.Words.{Binding};
ghost use Rattle.job_words.specs.Requests.{bound, all_bound};
ghost use Rattle.job_inputs.specs.Sources.{binding_at, first_unbound, names_source, first_stray, unbound_name};
ghost use Rattle.job_inputs.specs.Inputs.{path_of};

use flow_model::plan::{Node, Plan};
use flow_outside::failure::Memory;
use flow_types::name::Name;
use job_words::named_path::NamedPath;
use std::alloc::Global;

/// The name that keeps the words from binding each source of a plan once and nothing else: that of the
/// first source, in plan order, that isn't bound; else that of the first binding that names no source,
/// or a source a second time. `None` exactly where all is well.
///
/// The cost is a comparison of each source's name with each binding's, and of the bindings' names among
/// themselves. The rule is this project's own.
pub fn unbound_name(
    alloc: Global,
    bindings: &[NamedPath<'_>],
    plan: &Plan,
) -> Result<Option<Name>, Memory>
    ensures { IfOk result (λ name. name ≡ unbound_name (all_bound bindings.now) plan.now) }
{
    match first_unbound(bindings, plan.nodes.as_slice()) {
        Some(source) => Ok(Some(source.name.copy(alloc)?)),
        None => stray_name(alloc, bindings, plan.nodes.as_slice()),
    }
}

/// The name of the first binding that names no source, or one that a binding before it names; a copy.
fn stray_name(
    alloc: Global,
    bindings: &[NamedPath<'_>],
    nodes: &[Node],
) -> Result<Option<Name>, Memory>
    ensures { IfOk result (λ name. name ≡ option_map (λ (b : Binding). b.name)
        (first_stray (filter (λ (node : Node). is_source node.op) nodes.now) [] (all_bound bindings.now))) }
{
    match first_stray(bindings, nodes) {
        Some(name) => Ok(Some(copied(alloc, name)?)),
        None => Ok(None),
    }
}

/// A copy of a name that stands in a word.
fn copied(alloc: Global, name: &str) -> Result<Name, Memory>
    requires { IsTrue (is_name name.now) }
    ensures { IfOk result (λ copy. copy ≡ name.now) }
{
    let Ok(text) = String::from_str(alloc, name) else {
        return Err(Memory);
    };
    match Name::of(text) {
        Some(name) => Ok(name),
        None => unreachable!(),
    }
}

/// The path of the file that a source is bound to; empty where no binding has its name. The cost is a
/// comparison with each binding's name.
pub fn path_of<'a>(bindings: &[NamedPath<'a>], source: &Node) -> &'a str
    ensures { result.now ≡ path_of (all_bound bindings.now) source.now }
{
    match binding_at(bindings, source.name.as_str()) {
        Some(binding) => binding.path,
        None => "",
    }
}

/// The first binding of a name.
pub(crate) fn binding_at<'a>(bindings: &[NamedPath<'a>], name: &str) -> Option<NamedPath<'a>>
    ensures { option_map bound result ≡ binding_at (all_bound bindings.now) name.now }
{
    for i in 0..bindings.len() {
        let binding = bindings[i];
        if binding.name == name {
            return Some(binding);
        }
    }
    None
}

/// The first source that no binding names.
fn first_unbound<'a>(bindings: &[NamedPath<'_>], nodes: &'a [Node]) -> Option<&'a Node>
    ensures { option_copied result
        ≡ first_unbound (all_bound bindings.now) (filter (λ (node : Node). is_source node.op) nodes.now) }
{
    for i in 0..nodes.len() {
        let node = &nodes[i];
        if node.op.is_source() && binding_at(bindings, node.name.as_str()).is_none() {
            return Some(node);
        }
    }
    None
}

/// Whether a name is that of a source.
fn names_source(nodes: &[Node], name: &str) -> bool
    ensures { result ≡ names_source (filter (λ (node : Node). is_source node.op) nodes.now) name.now }
{
    for i in 0..nodes.len() {
        let source = &nodes[i];
        if source.op.is_source() && source.name.as_str() == name {
            return true;
        }
    }
    false
}

/// The name of the first binding that names no source, or one that a binding before it names.
fn first_stray<'a>(bindings: &[NamedPath<'a>], nodes: &[Node]) -> Option<&'a str>
    ensures name { option_map (λ s. s.now) result ≡ option_map (λ (b : Binding). b.name)
        (first_stray (filter (λ (node : Node). is_source node.op) nodes.now) [] (all_bound bindings.now)) }
    ensures form { IfSome result (λ s. IsTrue (is_name s.now)) }
{
    for i in 0..bindings.len() {
        let name = bindings[i].name;
        if !names_source(nodes, name) || binding_at(&bindings[..i], name).is_some() {
            return Some(name);
        }
    }
    None
}
