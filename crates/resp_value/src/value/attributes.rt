//! The value behind attributes.

ghost use Rattle.std.specs.Prelude.{◌≡◌};
ghost use Rattle.resp_value.specs.Attributes.{without_attributes};
ghost use Rattle.resp_value.specs.Values.{datum_of};

use super::Value;

impl Value {
    /// Returns the value without the attributes in front of it, however many there are. Returns the
    /// value itself if it has no attribute. Does not allocate.
    ///
    /// # Examples
    ///
    /// From [samples](../../../samples/src/values.rt):
    ///
    /// ```rust
    /// let annotated = Value::Attr(PairList::new(pairs), Box::new(alloc, Value::Int(7))?);
    /// println!(rt; "{:?}", annotated.without_attributes())?;
    /// ```
    ///
    /// This prints `Int(7)`.
    pub fn without_attributes(&self) -> &Value
        ensures { datum_of result.now ≡ without_attributes (datum_of self.now) }
    {
        match self {
            Value::Attr(_, value) => value.without_attributes(),
            _ => self,
        }
    }
}
