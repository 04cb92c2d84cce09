// Laws of the definitions that the contracts cite.

ghost use Rattle.vm_devices.specs.Laws.{TreesAreUnfoldings};

/// A device takes exactly the messages that unfold, pair by pair, to a finite tree of at most 65,536 leaves. The definition of a message's
/// tree cuts it off at so many levels; no such tree has more.
pub fn trees_are_unfoldings()
    ensures { TreesAreUnfoldings }
{}
