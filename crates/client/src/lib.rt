// A client's end: a declaration that is gathered table by table, and a ticket for the open transaction, which has to be spent.
#![tactic(auto)]

mod calling;
pub mod declaration;
pub mod laws;
pub mod ticket;
