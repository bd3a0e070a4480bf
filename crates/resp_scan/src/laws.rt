//! A law about the grammar's definitions. It is the contract of a function with an empty body.

ghost use Rattle.resp_scan.specs.Laws.{EveryTextIsJudged};

/// Every text of bytes either is a prefix of some encoding within the rules, or stops being such a
/// prefix at exactly one byte, because of exactly one rule.
pub fn every_text_is_viable_or_has_one_fault()
    ensures { EveryTextIsJudged }
{}
