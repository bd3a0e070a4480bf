//! Laws of the table and of slots.

ghost use Rattle.resp_commands.specs.Names.{NamesAreDistinct, NamesAreInLowerCase, SubcommandsAreDistinct};
ghost use Rattle.resp_commands.specs.Merges.{PublishedMerges};
ghost use Rattle.resp_commands.specs.Slots.{PublishedExamples};

/// No two commands have the same name.
pub fn names_are_distinct()
    ensures { NamesAreDistinct }
{}

/// No two subcommands of a command have the same name.
pub fn subcommands_are_distinct()
    ensures { SubcommandsAreDistinct }
{}

/// Each name is in lower case.
pub fn names_are_in_lower_case()
    ensures { NamesAreInLowerCase }
{}

/// The parts of DEL, UNLINK, EXISTS and TOUCH are summed, those of MGET are put together in the
/// order of the keys, and those of MSET all succeed. DBSIZE, KEYS and FLUSHALL go to each shard,
/// and GET is not split.
pub fn published_merges()
    ensures { PublishedMerges }
{}

/// The checksum of `123456789` is 0x31C3, and the hash tags are those of the examples in the
/// specification of Redis Cluster.
pub fn published_examples()
    ensures { PublishedExamples }
{}
