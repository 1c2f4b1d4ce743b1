//! A theorem about which chunks are refused for their dictionaries. The function does nothing.
ghost use Rattle.ipc_tracker.specs.Laws.{RefusalLaw};

/// Only chunks that no writer accepts are refused, given one type per id.
///
/// A schema that can be written has one value type per id. Such a chunk has different values under
/// one id, or other values than those that must not be replaced.
pub fn refused_dictionaries()
    ensures { RefusalLaw }
{}
