//! What a batch came to.

use ae_base::faults::SqlFault;
use ae_base::lists::Seq;
use ae_base::values::Value;
use conversation::faults::DriverFault;

/// Why a batch was refused.
#[derive(Drop)]
pub enum Fault {
    /// By the server.
    OfServer(SqlFault),
    /// By the driver.
    OfDriver(DriverFault),
}

/// What a batch came to.
#[derive(Drop)]
pub enum Outcome {
    /// The rows of an answer.
    Rows(Seq<Seq<Value>>),
    /// So many rows were changed.
    Changed(u64),
    /// A definition, or the begin or end of a transaction.
    Defined,
    /// The server or the driver refused.
    Refused(Fault),
}
