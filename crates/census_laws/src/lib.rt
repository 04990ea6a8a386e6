// What keeps the census's table of names from a name: the definitions and laws in specs/ share it with the code. No function stands here.
#![tactic(auto)]

// Why a name is not entered: the table has it, or it cannot tell, for no place is free or the slot's entry is too large a number.
#[derive(Clone, Copy)]
pub enum Clash {
    Twice,
    Unknown,
}
