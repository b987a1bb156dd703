// What one line of a document does to what was defined before it.
use crate::fault::Fault;
use index::counts::Counts;
