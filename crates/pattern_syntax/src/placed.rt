//! Tokens at their places.
ghost use Rattle.std.specs.Prelude.{◌≡◌, ◌==◌, ◌<◌, ◌≤◌, ◌^◌, length, drop, IfOk, IfErr, is_some};
ghost use Rattle.std.specs.Prelude.{true, take};
ghost use Rattle.std.specs.List.{list_all};
ghost use Rattle.label_base.specs.Answers.{Answers};
ghost use Rattle.pattern_syntax.specs.PatternCause.{pattern_cause};
ghost use Rattle.pattern_syntax.specs.Reading.{placed_cut};
ghost use Rattle.pattern_syntax.specs.Exact.{is_itself};
ghost use Rattle.pattern_syntax.specs.Shape.{are_text_bytes};
ghost use Rattle.pattern_syntax.specs.Tokens.{token_at};
ghost use Rattle.pattern_syntax.specs.Views.{token_of, token_cut};
ghost use Rattle.pattern_syntax.specs.Building.{IsProperToken};

use crate::cutting::read_token;
use crate::exact::plain_run;
use crate::limits::MOST_POSITIONS;
use crate::pattern_fault::PatternFault;
use crate::refusal::Refusal;
use crate::token::Token;

/// How many bytes at the beginning of a text stand for themselves, counted up to one more than a
/// pattern may have positions.
pub(crate) fn run_length(text: &[u8]) -> usize
    ensures within { result ≤ length text.now }
    ensures plain { list_all is_itself (take result text.now) ≡ true }
    ensures proper { are_text_bytes (take result text.now) ≡ true }
{
    let most = text.len().min(MOST_POSITIONS as usize + 1);
    plain_run(&text[..most])
}

/// The token at a place, and its length.
pub(crate) fn token_from(bytes: &[u8], at: usize) -> Result<(Token, usize), PatternFault>
    requires room { length bytes.now < 2 ^ 32 }
    requires before_end { at < length bytes.now }
    ensures value { Answers token_cut pattern_cause result
        (placed_cut at (token_at (at == 0) (drop at bytes.now))) }
    ensures within { IfOk result (λ cut. (0 < cut.1) × (cut.1 ≤ length (drop at bytes.now))) }
    ensures causes { IfErr result (λ fault. is_some (pattern_cause fault) ≡ true) }
    ensures proper { IfOk result (λ cut. IsProperToken (token_of cut.0)) }
{
    match read_token(at == 0, &bytes[at..]) {
        Ok(cut) => Ok(cut),
        Err(Refusal::Syntax) => Err(PatternFault::Syntax { at: at as u32 }),
        Err(Refusal::Unsupported) => Err(PatternFault::UnsupportedPattern { at: at as u32 }),
    }
}
