// The inbound queue (000), on a session and the storage that the caller lends for it: the opening, and the calls that leave the session as it
// is. In each contract one equation says the answer and every lent byte, by `did`, the definition of what a call does.
#![tactic(auto)]

pub mod open;
pub mod reading;
