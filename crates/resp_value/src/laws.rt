//! Laws of the grammar's definitions. Each law is the contract of a function with an empty body, so
//! the check of that function proves it.
//!
//! A *spelling* of a value is one of its encodings. A text is *viable* if it is a prefix of some
//! encoding.

ghost use Rattle.std.specs.Prelude.{[], ◌∷◌, ◌≡◌, codes, true, false, pos, negsuc};
ghost use Rattle.resp_value.specs.CutLaws.{ACutValueIsCutAlready, LengthsStayAsMany, ShortTextsAreKept};
ghost use Rattle.resp_value.specs.Canonical.{canonical_text};
ghost use Rattle.resp_value.specs.Data.{depth, longest, most_items, scalar, Array, Set, Map, Attr, Null, Bool, Error, Double, Bulk, BulkError, Verbatim, Big};
ghost use Rattle.resp_value.specs.Examples.{integer, simple, aggregate_of, IsSpelledInBoth, IsSpelledInThree, IsSpelledStreamed, IsSpelledWithDoubles, SpellsNothing, SpellsNothingInTwo, SpellsNothingSwitchedOff, SpellsNothingWithoutDoubles, HasCause, HasCauseInThree, IsCutWithFault};
ghost use Rattle.resp_value.specs.Rules.{Grammar, PushAtTop};
ghost use Rattle.resp_value.specs.declared.version.Version.TheVariants.{Two, Three};
ghost use Rattle.resp_value.specs.Laws.{EqualValuesHaveEqualData, ATextHasOneValue, NoSpellingBeginsAnother, NoSpellingIsEmpty, DigitsAreThoseOfStd, APushBeginsWithItsByte, ATextHasOneCut, ARestHasOneFault, VersionThreeSpellsWhatTwoDoes, CanonicalTextSpellsWhatFits, CanonicalTextTellsValuesApart, WhatWasReadFitsButForTotal, WhatWasReadCanBeWritten, WhatWasReadCountedCanBeWritten, ACountedSpellingIsNoShorter, FrontsOfSpellingsAreViable, FrontsOfViableTextsAreViable, LaterRulesLeaveLess, ATextHasOneCause, AViableTextHasNoCause, RulesHoldAtEachNode, TextsOfTreesAreBytes, DefaultItemsRefuseNothing, TheEmptyTextIsViable, TypeBytesAreViable, LaterTypeBytesWantVersionThree, ACommaBeginsADouble, StagesReadDoubles, DoublesAreAllThatTheSwitchAdds, FrontsAreViableWithoutDoubles, NoOtherByteBeginsATree};

use crate::value::Value;

/// Two values are equal by `==` if and only if they have the same content, wherever it is stored in
/// memory.
pub fn equal_values_have_equal_data()
    ensures { EqualValuesHaveEqualData ⟦<Value as PartialEq>⟧.eq }
{}

/// A text is a spelling of at most one value, whatever the version and the limits.
pub fn a_text_has_one_value()
    ensures { ATextHasOneValue }
{}

/// If two spellings are prefixes of the same text, they are the same spelling, with the same value
/// and the same bytes after it.
pub fn no_spelling_begins_another()
    ensures { NoSpellingBeginsAnother }
{}

/// No spelling is empty.
pub fn no_spelling_is_empty()
    ensures { NoSpellingIsEmpty }
{}

/// The decimal digits of a number are those that the standard library prints.
pub fn digits_are_those_of_std()
    ensures { DigitsAreThoseOfStd }
{}

/// A spelling begins with `>` if and only if its value is a push.
pub fn a_push_begins_with_its_byte()
    ensures { APushBeginsWithItsByte }
{}

/// There is at most one way to cut a text into values and a rest that does not begin with a
/// spelling.
pub fn a_text_has_one_cut()
    ensures { ATextHasOneCut }
{}

/// A rest has at most one fault: one rule and one byte.
pub fn a_rest_has_one_fault()
    ensures { ARestHasOneFault }
{}

/// A spelling in version 2 is a spelling of the same value in version 3, under the same limits.
pub fn version_three_spells_what_two_does()
    ensures { VersionThreeSpellsWhatTwoDoes }
{}

/// A value's canonical text is a spelling of the value if and only if the value fits the version
/// and the limits.
pub fn canonical_text_spells_what_fits()
    ensures { CanonicalTextSpellsWhatFits }
{}

/// Two values whose types the version has are equal if and only if their canonical texts are equal.
pub fn canonical_text_tells_values_apart()
    ensures { CanonicalTextTellsValuesApart }
{}

/// A value that was read can be written again. It fits all rules under which it was read, except
/// perhaps the limit `total` (`fits_but_for_total`). If its canonical text is within that limit
/// too, the text is a spelling of the value (`written`). This holds if nothing in the input was
/// streamed, because the canonical text is then no longer than the input (`no_longer`). It always
/// holds if the limits forbid streamed forms (`written_counted`).
pub fn what_was_read_can_be_written()
    ensures fits_but_for_total { WhatWasReadFitsButForTotal }
    ensures written { WhatWasReadCanBeWritten }
    ensures no_longer { ACountedSpellingIsNoShorter }
    ensures written_counted { WhatWasReadCountedCanBeWritten }
{}

/// Every prefix of a spelling is viable under each rule.
pub fn fronts_of_spellings_are_viable()
    ensures { FrontsOfSpellingsAreViable }
{}

/// Every prefix of a viable text is viable.
pub fn fronts_of_viable_texts_are_viable()
    ensures { FrontsOfViableTextsAreViable }
{}

/// Each rule admits only trees and viable texts that the rules before it admit.
pub fn later_rules_leave_less()
    ensures { LaterRulesLeaveLess }
{}

/// A text has at most one cause of an error.
pub fn a_text_has_one_cause()
    ensures { ATextHasOneCause }
{}

/// A text that is viable under the last rule has no cause.
pub fn a_viable_text_has_no_cause()
    ensures { AViableTextHasNoCause }
{}

/// Each rule except the limit `total` holds of a tree if and only if it holds at each node, given
/// the node's depth.
pub fn rules_hold_at_each_node()
    ensures { RulesHoldAtEachNode }
{}

/// Every text of a tree consists of bytes.
pub fn texts_of_trees_are_bytes()
    ensures { TextsOfTreesAreBytes }
{}

/// If streamed forms are allowed and the limit `items` is the greatest total, the limit `items` and
/// the switch for streamed forms reject nothing: the trees and spellings are those of the other
/// rules.
pub fn default_items_refuse_nothing()
    ensures { DefaultItemsRefuseNothing }
{}

/// The empty text is viable under each rule.
pub fn the_empty_text_is_viable()
    ensures { TheEmptyTextIsViable }
{}

/// Each type byte of a version is viable in it under each rule.
pub fn type_bytes_are_viable()
    ensures { TypeBytesAreViable }
{}

/// In version 2, a type byte of version 3 has the version as its cause.
pub fn later_type_bytes_want_version_three()
    ensures { LaterTypeBytesWantVersionThree }
{}

/// A `,` begins a double. If doubles are not allowed, it is rejected as a double in both versions.
/// If doubles are allowed, version 2 rejects it because of the version, and version 3 accepts it.
pub fn a_comma_begins_a_double()
    ensures { ACommaBeginsADouble }
{}

/// A text is a double exactly if its bytes lead, stage by stage, to a stage at which a double may
/// end.
pub fn stages_read_doubles()
    ensures { StagesReadDoubles }
{}

/// If doubles are not allowed, the spellings are exactly the spellings with doubles allowed whose
/// values contain no double. The switch changes nothing else.
pub fn doubles_are_all_that_the_switch_adds()
    ensures { DoublesAreAllThatTheSwitchAdds }
{}

/// If doubles are not allowed, a text is viable under a rule after the first exactly if some tree
/// without doubles begins with it and keeps the rules up to this one. So the place and the cause of
/// an error depend only on values without doubles.
pub fn fronts_are_viable_without_doubles()
    ensures { FrontsAreViableWithoutDoubles }
{}

/// No tree begins with a byte other than `,` and the type bytes of version 3.
pub fn no_other_byte_begins_a_tree()
    ensures { NoOtherByteBeginsATree }
{}

/// Texts with the values that they encode.
pub fn texts_and_their_values()
    // An integer may have a sign and leading zeros, and a length may have leading zeros.
    ensures plus_and_zeros { IsSpelledInBoth (codes ":+007\r\n") (integer (pos 7)) }
    ensures minus_zero { IsSpelledInBoth (codes ":-0\r\n") (integer (pos 0)) }
    ensures length_with_zero { IsSpelledInBoth (codes "$01\r\na\r\n") (scalar (Bulk (codes "a"))) }

    // A null has three forms.
    ensures bulk_null { IsSpelledInBoth (codes "$-1\r\n") (scalar Null) }
    ensures array_null { IsSpelledInBoth (codes "*-1\r\n") (scalar Null) }
    ensures plain_null { IsSpelledInThree (codes "_\r\n") (scalar Null) }

    // A big zero is never negative and keeps one digit.
    ensures big_minus_zero { IsSpelledInThree (codes "(-00\r\n") (scalar (Big false (codes "0"))) }

    // The length of a verbatim string counts its format and the `:`.
    ensures verbatim { IsSpelledInThree (codes "=6\r\ntxt:hi\r\n")
        (scalar (Verbatim (codes "txt") (codes "hi"))) }

    // The other type bytes.
    ensures error { IsSpelledInBoth (codes "-a\r\n") (scalar (Error (codes "a"))) }
    ensures bulk_error { IsSpelledInThree (codes "!1\r\na\r\n") (scalar (BulkError (codes "a"))) }
    ensures set { IsSpelledInThree (codes "~1\r\n#f\r\n")
        (aggregate_of Set (scalar (Bool false) ∷ [])) }

    // The value of a streamed string is its chunks joined.
    ensures chunks { IsSpelledStreamed (codes "$?\r\n;2\r\nab\r\n;1\r\nc\r\n;0\r\n")
        (scalar (Bulk (codes "abc"))) }
    ensures streamed_array { IsSpelledStreamed (codes "*?\r\n_\r\n.\r\n")
        (aggregate_of Array (scalar Null ∷ [])) }
    ensures streamed_set { IsSpelledStreamed (codes "~?\r\n_\r\n.\r\n")
        (aggregate_of Set (scalar Null ∷ [])) }
    ensures streamed_map { IsSpelledStreamed (codes "%?\r\n+a\r\n:1\r\n.\r\n")
        (aggregate_of Map (simple (codes "a") ∷ integer (pos 1) ∷ [])) }

    // A double is a number, an infinity or no number, and its value is its text.
    ensures double { IsSpelledWithDoubles (codes ",3.14\r\n") (scalar (Double (codes "3.14"))) }
    ensures exponent { IsSpelledWithDoubles (codes ",-1E+20\r\n")
        (scalar (Double (codes "-1E+20"))) }
    ensures infinity { IsSpelledWithDoubles (codes ",-inf\r\n")
        (scalar (Double (codes "-inf"))) }
    ensures negative_nan { IsSpelledWithDoubles (codes ",-nan\r\n")
        (scalar (Double (codes "-nan"))) }

    // An attribute together with the value that it annotates is one member.
    ensures attribute { IsSpelledInThree (codes "*1\r\n|1\r\n+a\r\n:1\r\n+b\r\n")
        (aggregate_of Array
        (aggregate_of Attr (simple (codes "a") ∷ integer (pos 1) ∷ simple (codes "b") ∷ []) ∷ [])) }
{}

/// Values and their canonical texts.
pub fn values_and_their_canonical_texts()
    ensures null_in_two { canonical_text Two (scalar Null) ≡ codes "$-1\r\n" }
    ensures null_in_three { canonical_text Three (scalar Null) ≡ codes "_\r\n" }
    ensures negative { canonical_text Two (integer (negsuc 41)) ≡ codes ":-42\r\n" }
    ensures double { canonical_text Three (scalar (Double (codes "1e+20"))) ≡ codes ",1e+20\r\n" }
    ensures big_zero { canonical_text Three (scalar (Big false (codes "0"))) ≡ codes "(0\r\n" }
    ensures map { canonical_text Three
        (aggregate_of Map (scalar (Bulk (codes "key")) ∷ scalar (Bool true) ∷ []))
        ≡ codes "%1\r\n$3\r\nkey\r\n#t\r\n" }
{}

/// Texts that encode no value.
pub fn texts_without_a_value()
    // An attribute needs a value that it annotates.
    ensures attribute_alone { SpellsNothing (codes "|0\r\n") }
    // The text of a double is a number of the published grammar.
    ensures empty_double { SpellsNothing (codes ",\r\n") }
    ensures word_as_double { SpellsNothing (codes ",abc\r\n") }
    ensures double_without_whole { SpellsNothing (codes ",.5\r\n") }
    ensures double_without_fraction { SpellsNothing (codes ",1.\r\n") }
    ensures double_without_exponent { SpellsNothing (codes ",1e+\r\n") }
    ensures hexadecimal_double { SpellsNothing (codes ",0x1p3\r\n") }
    ensures longer_infinity { SpellsNothing (codes ",infinity\r\n") }
    ensures plus_infinity { SpellsNothing (codes ",+inf\r\n") }
    // Limits that do not allow doubles reject every double.
    ensures double { SpellsNothingWithoutDoubles (codes ",1.5\r\n") }
    // An integer has 64 bits.
    ensures more_than_64_bits { SpellsNothing (codes ":9223372036854775808\r\n") }
    ensures below_64_bits { SpellsNothing (codes ":-9223372036854775809\r\n") }
    // Version 2 has no streamed forms, and version 3 has none if the limits forbid them.
    ensures streamed_string_in_two { SpellsNothingInTwo (codes "$?\r\n;0\r\n") }
    ensures streamed_in_two { SpellsNothingInTwo (codes "*?\r\n.\r\n") }
    ensures array_switched_off { SpellsNothingSwitchedOff (codes "*?\r\n.\r\n") }
    ensures string_switched_off { SpellsNothingSwitchedOff (codes "$?\r\n;0\r\n") }
{}

/// Values with the numbers that the limits restrict.
pub fn values_and_their_measures()
    // An integer has no content. The content of a big number is its digits without the sign.
    ensures integer { longest (integer (pos 123456)) ≡ 0 }
    ensures big { longest (scalar (Big true (codes "12"))) ≡ 2 }
    // The text of a double is its content.
    ensures double { longest (scalar (Double (codes "-inf"))) ≡ 4 }
    // The content of a verbatim string includes its format and the `:`.
    ensures verbatim { longest (scalar (Verbatim (codes "txt") (codes "hi"))) ≡ 6 }
    ensures nested { depth (aggregate_of Array (aggregate_of Set [] ∷ simple (codes "a") ∷ [])) ≡
        2 }
    // Items are members, or the pairs of a map or an attribute.
    ensures members { most_items (aggregate_of Array (scalar Null ∷ scalar Null ∷ [])) ≡ 2 }
    ensures pairs { most_items (aggregate_of Map (scalar Null ∷ scalar Null ∷ [])) ≡ 1 }
    ensures annotation { most_items
        (aggregate_of Attr (scalar Null ∷ scalar Null ∷ simple (codes "a") ∷ [])) ≡ 1 }
{}

/// Texts that are rejected at their last byte, each with its cause.
pub fn texts_and_their_causes()
    // A line contains no LF.
    ensures newline_in_a_line { HasCause (codes "+a\n") Grammar }
    // A number has at least one digit.
    ensures no_digits { HasCause (codes ":\r") Grammar }
    // A streamed map may end only after whole pairs.
    ensures map_closed_after_a_key { HasCause (codes "%?\r\n+a\r\n.") Grammar }
    // Pushes and attributes cannot be streamed.
    ensures streamed_push { HasCause (codes ">?") Grammar }
    ensures streamed_attribute { HasCause (codes "|?") Grammar }
    // A push may only be the outermost value.
    ensures push_below_the_top { HasCauseInThree (codes "*1\r\n>") PushAtTop }
{}

/// A text, cut into its values and a rest, with the place and cause of the fault in the rest.
pub fn a_cut_and_its_fault()
    ensures { IsCutWithFault (codes "+a\r\n+b\n+c\r\n")
        (simple (codes "a") ∷ []) (codes "+b\n+c\r\n") Grammar 2 }
{}

/// If no text has more bytes than are shown, the whole value is kept, and no lengths.
pub fn short_texts_are_kept()
    ensures { ShortTextsAreKept }
{}

/// Cutting a value again changes nothing.
pub fn a_cut_value_is_cut_already()
    ensures { ACutValueIsCutAlready }
{}

/// A cut value has as many texts with more bytes than are shown as there are lengths. So it is
/// known which text each length belongs to.
pub fn lengths_stay_as_many()
    ensures { LengthsStayAsMany }
{}
