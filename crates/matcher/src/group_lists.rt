use fuun_base::List;

/// The groups of a match: ranges of places, from the first to just behind the last base.
pub type GroupList = List<(u64, u64)>;
