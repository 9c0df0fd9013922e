//! Laws on clusters and their numbers.

ghost use Rattle.rr_store.specs.Numbers.{LeadBackStays, StoredAreOneEach, StoredStay};

/// Where all clusters that a space, a message or a cluster leads to are the store's, a number names one cluster; what is
/// the store's stays so; and clusters lead to earlier ones alone.
pub fn shown_by_numbers()
    ensures one_each { StoredAreOneEach }
    ensures stay { StoredStay }
    ensures back { LeadBackStays }
{}
