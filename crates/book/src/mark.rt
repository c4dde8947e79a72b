// Mark facts.

// A mark and a name that has it, both by number.
#[derive(Clone, Copy, Debug, PartialEq, Eq)]
pub struct MarkFact {
    pub mark: u8,
    pub name: u8,
}
