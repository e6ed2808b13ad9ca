// What a rule is handed: the bindings of its node, as they are seen in the mode.
use limits::Name;
use values::value::Value;

#[derive(Clone, Copy)]
pub struct Binding {
    pub name: Name,
    pub value: Value,
}

// Of the node's names, in the order written. A node with fewer leaves the others blank, and its rule does not look at them.
#[derive(Clone, Copy)]
pub struct Bindings {
    pub x: Binding,
    pub y: Binding,
    pub z: Binding,
}
