//! Limits, as C passes them.

ghost use Rattle.std.specs.Prelude.{◌≡◌, ◌↔◌, true, IsOk, IfOk};
ghost use Rattle.resp_value.specs.Bounds.{AreBounds};
ghost use Rattle.resp_c.specs.Limits.{bounds_of};

use resp_value::limits::{BadLimits, Limits};

/// The limits of the values that are read, as in [`Limits`].
#[repr(C)]
#[derive(Clone, Copy)]
pub struct RespLimits {
    /// The greatest number of aggregates nested inside one another, 4 to 128.
    pub depth: u64,
    /// The greatest number of bytes of one content, 64 to 1,073,741,824.
    pub length: u64,
    /// The greatest number of bytes of one encoded value, 256 to 1,099,511,627,776.
    pub total: u64,
    /// The greatest number of members of one array, set or push, or of pairs of one map or
    /// attribute, 16 to 1,099,511,627,776.
    pub items: u64,
    /// Whether streamed strings and aggregates are allowed.
    pub streamed: bool,
    /// Whether doubles are allowed, in version 3.
    pub doubles: bool,
}

/// Sets the standard limits: depth 32, contents of 536,870,912 bytes, values of 1,073,741,824
/// bytes, 1,099,511,627,776 items, with streamed forms and doubles.
#[unsafe(no_mangle)]
pub extern "C" fn resp_limits_standard(limits: &mut RespLimits)
    ensures standard { bounds_of limits.new ≡ record {
      depth = 32;
      length = 536_870_912;
      total = 1_073_741_824;
      items = 1_099_511_627_776;
      streamed = true;
      doubles = true;
    } }
{
    let standard = Limits::standard();
    *limits = RespLimits {
        depth: standard.depth(),
        length: standard.length(),
        total: standard.total(),
        items: standard.items(),
        streamed: true,
        doubles: true,
    };
}

/// Converts the limits. Fails if and only if a limit is outside its range.
pub(crate) fn checked(limits: &RespLimits) -> Result<Limits, BadLimits>
    ensures ok { IsOk result ↔ AreBounds (bounds_of limits.now) }
    ensures kept { IfOk result (λ checked. checked ≡ bounds_of limits.now) }
{
    let checked = Limits::new(limits.depth, limits.length, limits.total)?;
    let checked = checked.with_items(limits.items)?;
    Ok(
        checked
            .with_streamed(limits.streamed)
            .with_doubles(limits.doubles),
    )
}
