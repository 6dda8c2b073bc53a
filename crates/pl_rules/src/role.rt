/// What a principal may do.
#[derive(Clone, Copy, Debug, PartialEq, Eq)]
pub enum Role {
    Admin,
    Author,
    Approver,
    Agent,
    Reader,
}
