//! Scripts, read from their texts.
ghost use Rattle.std.specs.Prelude.{◌≡◌, IfOk, IfErr};
ghost use Rattle.mm_script.specs.declared.script.Script.{Script};
ghost use Rattle.mm_script.specs.ScriptText.{IsScriptText, IsFirstFault, IfBad};

use crate::fault::ScriptFault;
use crate::files::read_files;
use crate::header::read_limits;
use crate::script::Script;
use crate::threads::read_threads;
use std::alloc::Global;
use text_words::Lines;

/// The script whose text these bytes are.
pub fn read_script(alloc: Global, bytes: &[u8]) -> Result<Script, ScriptFault>
    ensures found { IfOk result (IsScriptText bytes.now) }
    // No other script has this text.
    ensures only { IfOk result (λ script. (other : Script) → IsScriptText bytes.now other → other ≡ script) }
    // Bad(n): line n is the first outside the grammar, and no script has this text.
    ensures bad { IfErr result (λ fault. IfBad fault (IsFirstFault bytes.now)) }
    ensures none { IfErr result (λ fault. IfBad fault (λ n. (script : Script) → ¬ (IsScriptText bytes.now script))) }
{
    let mut lines = Lines::of(bytes);
    let limits = read_limits(&mut lines)?;
    let shelf = read_files(alloc, &mut lines)?;
    let threads = read_threads(alloc, &mut lines)?;
    Ok(Script {
        limits,
        shelf,
        threads,
    })
}
