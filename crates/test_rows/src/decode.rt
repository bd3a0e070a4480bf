//! Rows that run on a decoder.

mod calls;
mod row_decoder;

use self::calls::Says;
use crate::bounds;
use crate::cut::Cut;
use crate::subject::Subject;
use crate::text::{number, split, version};
use anyhow::{Result, bail};
use resp_decode::{CutDecoder, Decoder};
use resp_value::{Limits, Version};
use std::alloc::Global;

/// A decoder, and a decoder that keeps the first bytes of each text.
#[derive(Drop)]
pub(crate) struct Reader {
    alloc: Global,
    decoder: Decoder,
    cutter: CutDecoder,
}

impl Subject for Reader {
    fn new(alloc: Global) -> Result<Reader> {
        Ok(Reader {
            alloc,
            decoder: Decoder::new(alloc, Version::Two, &Limits::standard()),
            cutter: CutDecoder::new(alloc, Version::Two, &Limits::standard(), 32),
        })
    }

    fn is_cut(name: &str) -> bool {
        name == "decode" || name == "decode_size" || name == "cut"
    }

    fn run(&mut self, name: &str, given: &str, cut: Cut, said: &mut String) -> Result<()> {
        let alloc = self.alloc;
        let decoder = &mut self.decoder;
        match name {
            "decoder" => renew(alloc, decoder, given),
            "decode" => calls::decode(alloc, decoder, given, cut, Says::Value, said),
            "decode_size" => calls::decode(alloc, decoder, given, cut, Says::Size, said),
            "feed" => calls::feed(alloc, decoder, given, Says::Value, said),
            "feed_size" => calls::feed(alloc, decoder, given, Says::Size, said),
            "finish" => calls::finish(decoder, said),
            "held" => calls::held(decoder, said),
            "version" => calls::set_version(decoder, given, said),
            "all" => calls::all(alloc, given, said),
            "cutter" => {
                self.cutter = cutter_of(alloc, given)?;
                Ok(())
            }
            "cut" => calls::decode(alloc, &mut self.cutter, given, cut, Says::Value, said),
            "cut_finish" => calls::finish(&self.cutter, said),
            "cut_held" => calls::held(&self.cutter, said),
            "cut_version" => calls::set_version(&mut self.cutter, given, said),
            _ => bail!("an unknown row"),
        }
    }
}

/// Replaces the decoder with a new decoder of the version and limits, written as `3 depth=4`.
fn renew(alloc: Global, decoder: &mut Decoder, given: &str) -> Result<()> {
    let (number, limits) = split(given);
    *decoder = Decoder::new(alloc, version(number)?, &bounds::limits(limits)?);
    Ok(())
}

/// Returns a new decoder for a number of bytes that are shown, a version and limits, written as
/// `32 3 depth=4`.
fn cutter_of(alloc: Global, given: &str) -> Result<CutDecoder> {
    let (shown, rest) = split(given);
    let (version_number, limits) = split(rest);
    Ok(CutDecoder::new(
        alloc,
        version(version_number)?,
        &bounds::limits(limits)?,
        number(shown)? as usize,
    ))
}
