//! The rest of a pattern that has too many positions, whatever follows.
ghost use Rattle.std.specs.Prelude.{◌≡◌, ◌+◌, ◌<◌, ◌≤◌, ◌^◌, length, unwrap_or, Some, MatchOption};
ghost use Rattle.std.specs.Prelude.{None, is_some, true};
ghost use Rattle.pattern_syntax.specs.PatternCause.{pattern_cause};
ghost use Rattle.pattern_syntax.specs.Reading.{structure_fault, depth_behind, ends_piece};
ghost use Rattle.pattern_syntax.specs.Reading.{fault_from};
ghost use Rattle.pattern_syntax.specs.Views.{token_of};
ghost use Rattle.pattern_syntax.specs.declared.limits.TheConstants.{MOST_GROUPS};
ghost use Rattle.pattern_syntax.specs.declared.pattern_fault.PatternWhy.TheVariants as why;

use crate::limits::MOST_GROUPS;
use crate::pattern_fault::PatternFault;
use crate::placed::token_from;
use crate::token::Token;

/// The fault of a token, where so many groups are open, and a piece ends right before it or
/// doesn't.
fn find_fault(depth: u32, after_piece: bool, at: u32, token: &Token) -> Option<PatternFault>
    ensures { MatchOption result (structure_fault depth after_piece at (token_of token.now) ≡ None)
        (λ fault. (pattern_cause fault ≡ structure_fault depth after_piece at (token_of token.now))
        × (is_some (pattern_cause fault) ≡ true)) }
{
    match token {
        Token::Open => (depth >= MOST_GROUPS).then_some(PatternFault::TooDeep { at }),
        Token::Close => (depth == 0).then_some(PatternFault::Syntax { at }),
        Token::Times { .. } => (!after_piece).then_some(PatternFault::Syntax { at }),
        _ => None,
    }
}

/// How many groups are open behind a token.
fn depth_after(token: &Token, depth: u32) -> u32
    requires { depth ≤ MOST_GROUPS }
    ensures { result ≡ depth_behind (token_of token.now) depth }
{
    match token {
        Token::Open => depth + 1,
        Token::Close => depth.saturating_sub(1),
        _ => depth,
    }
}

/// Whether a repeat may follow a token.
fn is_piece_end(token: &Token) -> bool
    ensures { result ≡ ends_piece (token_of token.now) }
{
    matches!(token, Token::Byte(_) | Token::Set(_) | Token::Close)
}

/// The first fault of what stands from a place on, outside of all groups; without one the positions
/// are too many.
pub(crate) fn refuse_rest(bytes: &[u8], from: usize, after_piece: bool) -> PatternFault
    requires room { length bytes.now < 2 ^ 32 }
    requires within { from ≤ length bytes.now }
    ensures { pattern_cause result
        ≡ Some (unwrap_or (fault_from from after_piece bytes.now) why.TooManyPositions) }
{
    let mut depth = 0;
    let mut after_piece = after_piece;
    let mut at = from;
    'tokens: while at < bytes.len() {
        let (token, length) = match token_from(bytes, at) {
            Ok(cut) => cut,
            Err(fault) => return fault,
        };
        if let Some(fault) = find_fault(depth, after_piece, at as u32, &token) {
            return fault;
        }
        depth = depth_after(&token, depth);
        after_piece = is_piece_end(&token);
        at += length;
    }
    if depth > 0 {
        return PatternFault::Syntax { at: at as u32 };
    }
    PatternFault::TooManyPositions
}
