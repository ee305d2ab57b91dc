//! The ready store that is built here.
use crate::table::JobTable;

/// A table of jobs, as the store of the ready ones.
pub type Row = JobTable;
