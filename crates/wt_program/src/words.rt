//! What the program is called with.

ghost use Rattle.std.specs.Prelude.{◌≡◌, ◌↔◌, [], IsTrue, IsErr, IfOk};
ghost use Rattle.wt_program.specs.Words.{IsRun};

use std::alloc::Global;
use std::io::ErrorKind;
use wt_env::memory::OutOfMemory;
use wt_env::text::Text;

/// Whether the arguments are the single word `run`.
pub fn is_run(words: &[Text]) -> bool
    ensures { IsTrue result ↔ IsRun words.now }
{
    words.len() == 1 && words[0].as_str() == "run"
}

/// The words where reading them failed with an error of this kind. Unless memory ran out, one of them
/// isn't text, and there are no words of the program.
pub fn words_unread(alloc: Global, kind: ErrorKind) -> Result<Vec<Text>, OutOfMemory>
    ensures memory { IsErr result ↔ (kind ≡ ErrorKind.OutOfMemory) }
    ensures none { IfOk result (λ words. words.items ≡ []) }
{
    if kind == ErrorKind::OutOfMemory {
        return Err(OutOfMemory);
    }
    Ok(Vec::new(alloc))
}

#[cfg(test)]
mod tests {
    use super::*;
    use std::test::Fail;

    #[test]
    fn tells_run_from_other_words(rt: HostRuntime) -> Result<(), Fail> {
        let alloc = rt.alloc();
        let run = Text::from_str(alloc, "run")?;
        let again = Text::from_str(alloc, "run")?;
        let other = Text::from_str(alloc, "Run")?;
        assert!(rt; !is_run(&[]));
        assert!(rt; !is_run(&[other]));
        let one = vec![in alloc; run]?;
        assert!(rt; is_run(one.as_slice()));
        let mut two = one;
        two.push(again)?;
        assert!(rt; !is_run(two.as_slice()));
        Ok(())
    }

    #[test]
    fn tells_want_of_memory_from_words_that_are_no_text(rt: HostRuntime) -> Result<(), Fail> {
        let rows = [
            (ErrorKind::OutOfMemory, Err(OutOfMemory)),
            (ErrorKind::InvalidData, Ok(0)),
        ];
        for (kind, want) in rows {
            let words = words_unread(rt.alloc(), kind);
            assert_eq!(rt; words.map(|words| words.len()), want);
        }
        Ok(())
    }
}
