//! What is known of one job of a list that is worked in its order.
ghost use Rattle.std.specs.Prelude.{Some};
ghost use Rattle.timing.specs.Written.{fraction_text, entry_text};

use std::fmt;

/// The load of a list up to and with one of its jobs, a fraction that is not reduced.
#[derive(Clone, Copy, PartialEq, Eq, Debug)]
pub struct Load {
    /// The ticks that the jobs take.
    pub sum: u64,
    /// The ticks from the start to the deadline of the last of them.
    pub span: u64,
}

/// A load is written as `SUM SPAN`.
impl fmt::Display for Load {
    ghost output = { λ l. Some (fraction_text l) };

    fn fmt<W: fmt::Write>(&self, f: &mut fmt::Formatter<W>) -> fmt::Result {
        let Load { sum, span } = *self;
        write!(f, "{sum} {span}")
    }
}

/// One job of a list: when it finishes, what it leaves to its deadline, and its load.
#[derive(Clone, Copy, Default, PartialEq, Eq, Debug)]
pub struct Entry {
    pub number: u16,
    pub finish: u64,
    /// The deadline less the finish.
    pub residual: i64,
    /// The load up to and with this job, absent once its deadline has come.
    pub load: Option<Load>,
}

impl fmt::Display for Entry {
    ghost output = { λ e. Some (entry_text e) };

    fn fmt<W: fmt::Write>(&self, f: &mut fmt::Formatter<W>) -> fmt::Result {
        let Entry {
            number,
            finish,
            residual,
            load,
        } = *self;
        match load {
            Some(load) => write!(f, "job {number} {finish} {residual} {load}"),
            None => write!(f, "job {number} {finish} {residual} - -"),
        }
    }
}
