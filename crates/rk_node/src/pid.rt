ghost use Rattle.std.specs.Prelude.{◌<◌};
ghost use Rattle.ce_model.specs.Limits.{process_count};

/// The id of a process of a node.
#[derive(Clone, Copy, Debug, PartialEq, Eq)]
pub(crate) struct Pid {
    pub number: u32,
    ghost within: { number < process_count },
}
