use pl_requests::Reply;

/// What a message is answered.
#[derive(Drop)]
pub enum Answer {
    /// The service's reply.
    Reply(Reply),
    /// The keeper of the rows failed, and nothing is added.
    KeeperFault,
    /// Memory is wanting, and nothing is added.
    Memory,
}
