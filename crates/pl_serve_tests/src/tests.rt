mod at_once;
mod calls;
mod clerks;
mod four;
mod sockets;
