//! Laws about the JSON texts of values.

ghost use Rattle.resp_json.specs.Laws.{EqualJsonMeansEqualValues};

/// Two values with the same JSON text are equal. So the text keeps the kind of a value, the bytes of
/// its texts, the sign and the digits of its numbers, and the order of its members.
pub fn equal_json_means_equal_values()
    ensures { EqualJsonMeansEqualValues }
{}
