// What the kind byte fixes: the body's length, and the rule that its fields have to fit.
ghost use Rattle.std.specs.Prelude.{◌≡◌};
ghost use Rattle.program.specs.Kinds.{body_of};

// Which fields a body has.
#[derive(Clone, Copy)]
pub enum Rule {
    // none that can be bad
    Free,
    // x
    OneName,
    // o, x, y
    Operation,
    // x, y, z
    ThreeNames,
    // a, q, x
    Share,
    // q, x
    Reveal,
    // x, e1, e2
    Parts,
    // p, e
    Par,
    // f, x
    Call,
}

// The length of a node's body, and its rule. PARTIES is no node, and neither is a byte that is no kind at all.
pub fn body_of(kind: u8) -> Option<(usize, Rule)>
    ensures { result ≡ body_of kind }
{
    match kind {
        1 => Some((1, Rule::OneName)),
        2 => Some((4, Rule::Free)),
        3 => Some((3, Rule::Operation)),
        4 => Some((3, Rule::ThreeNames)),
        5 => Some((0, Rule::Free)),
        6..=7 => Some((1, Rule::OneName)),
        8 => Some((4, Rule::Share)),
        9 => Some((3, Rule::Reveal)),
        10..=11 => Some((5, Rule::Parts)),
        12 => Some((4, Rule::Par)),
        13 => Some((3, Rule::Call)),
        _ => None,
    }
}
