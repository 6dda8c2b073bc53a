use crate::fact::Fact;
use pl_base::List;
use pl_requests::Call;

/// An entry of the history: its number from 1, the number of the seat that made it, the call, and
/// the facts that the call added, in order.
#[derive(Drop)]
pub struct Entry {
    pub number: u64,
    pub seat: u64,
    pub call: Call,
    pub facts: List<Fact>,
}
