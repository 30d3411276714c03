//! Members of an object, each with its name.
ghost use Rattle.std.specs.Prelude.{◌∷◌, [], decimal};
ghost use Rattle.json.specs.Token as token;
ghost use Rattle.jsp_reply.specs.Tokens.{AddsTokens};

use json::Writer;
use jsp_types::NoMemory;

pub(crate) fn write_name(out: &mut Writer, name: &str) -> Result<(), NoMemory>
    ensures { AddsTokens result out.old out.new (token.key name.now ∷ []) }
{
    out.key(name)
}

pub(crate) fn write_count(out: &mut Writer, name: &str, n: u64) -> Result<(), NoMemory>
    ensures { AddsTokens result out.old out.new
        (token.key name.now ∷ token.number (decimal n) ∷ []) }
{
    out.key(name)?;
    out.u64(n)
}

pub(crate) fn write_text(out: &mut Writer, name: &str, text: &str) -> Result<(), NoMemory>
    ensures { AddsTokens result out.old out.new
        (token.key name.now ∷ token.string text.now ∷ []) }
{
    out.key(name)?;
    out.string(text)
}

pub(crate) fn write_flag(out: &mut Writer, name: &str, flag: bool) -> Result<(), NoMemory>
    ensures { AddsTokens result out.old out.new
        (token.key name.now ∷ token.boolean flag ∷ []) }
{
    out.key(name)?;
    out.boolean(flag)
}
