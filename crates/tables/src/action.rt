// What a branch of a statement does.
use crate::family::Member;
use crate::place::{Place, State};
use crate::time::Tenths;

/// Sets a place or a member of a family, or lets the actions below it wait longer.
#[derive(Clone, Copy)]
pub enum Action {
    SetPlace(Place, State),
    SetMember(Member, State),
    Delay(Tenths),
}
