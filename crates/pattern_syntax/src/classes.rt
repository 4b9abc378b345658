//! The classes of bytes as sets, in the C locale: see isalpha(3).
ghost use Rattle.std.specs.Prelude.{◌≡◌};
ghost use Rattle.pattern_syntax.specs.ByteSet.{has_byte};
ghost use Rattle.pattern_syntax.specs.Classes.{is_digit_class, is_word_class, is_space_class};
ghost use Rattle.pattern_syntax.specs.Classes.{is_alpha, is_lower, is_upper, is_alnum};
ghost use Rattle.pattern_syntax.specs.Classes.{is_hexadecimal, is_blank_class, is_control};
ghost use Rattle.pattern_syntax.specs.Classes.{is_graphic, is_printed, is_punctuation};
ghost use Rattle.pattern_syntax.specs.Classes.{is_text_byte};

use crate::byte_set::ByteSet;

/// ASCII digits.
#[tactic(auto, using(crate::proofs::ClassLemmas::digits_are))]
pub(crate) fn digits() -> ByteSet
    ensures { has_byte result ≡ is_digit_class }
{
    ByteSet {
        words: [0x03ff_0000_0000_0000, 0, 0, 0],
    }
}

/// ASCII letters, digits and the underscore.
#[tactic(auto, using(crate::proofs::ClassLemmas::words_are))]
pub(crate) fn words() -> ByteSet
    ensures { has_byte result ≡ is_word_class }
{
    ByteSet {
        words: [0x03ff_0000_0000_0000, 0x07ff_fffe_87ff_fffe, 0, 0],
    }
}

/// 0x09 to 0x0d and the space.
#[tactic(auto, using(crate::proofs::ClassLemmas::spaces_are))]
pub(crate) fn spaces() -> ByteSet
    ensures { has_byte result ≡ is_space_class }
{
    ByteSet {
        words: [0x0000_0001_0000_3e00, 0, 0, 0],
    }
}

/// ASCII letters.
#[tactic(auto, using(crate::proofs::ClassLemmas::letters_are))]
pub(crate) fn letters() -> ByteSet
    ensures { has_byte result ≡ is_alpha }
{
    ByteSet {
        words: [0, 0x07ff_fffe_07ff_fffe, 0, 0],
    }
}

/// Small ASCII letters.
#[tactic(auto, using(crate::proofs::ClassLemmas::small_letters_are))]
pub(crate) fn small_letters() -> ByteSet
    ensures { has_byte result ≡ is_lower }
{
    ByteSet {
        words: [0, 0x07ff_fffe_0000_0000, 0, 0],
    }
}

/// Capital ASCII letters.
#[tactic(auto, using(crate::proofs::ClassLemmas::capitals_are))]
pub(crate) fn capitals() -> ByteSet
    ensures { has_byte result ≡ is_upper }
{
    ByteSet {
        words: [0, 0x0000_0000_07ff_fffe, 0, 0],
    }
}

/// ASCII letters and digits.
#[tactic(auto, using(crate::proofs::ClassLemmas::letters_and_digits_are))]
pub(crate) fn letters_and_digits() -> ByteSet
    ensures { has_byte result ≡ is_alnum }
{
    ByteSet {
        words: [0x03ff_0000_0000_0000, 0x07ff_fffe_07ff_fffe, 0, 0],
    }
}

/// Hexadecimal digits of either case.
#[tactic(auto, using(crate::proofs::ClassLemmas::hexadecimal_digits_are))]
pub(crate) fn hexadecimal_digits() -> ByteSet
    ensures { has_byte result ≡ is_hexadecimal }
{
    ByteSet {
        words: [0x03ff_0000_0000_0000, 0x0000_007e_0000_007e, 0, 0],
    }
}

/// The space and the tab.
#[tactic(auto, using(crate::proofs::ClassLemmas::blanks_are))]
pub(crate) fn blanks() -> ByteSet
    ensures { has_byte result ≡ is_blank_class }
{
    ByteSet {
        words: [0x0000_0001_0000_0200, 0, 0, 0],
    }
}

/// 0x01 to 0x1f and 0x7f.
#[tactic(auto, using(crate::proofs::ClassLemmas::controls_are))]
pub(crate) fn controls() -> ByteSet
    ensures { has_byte result ≡ is_control }
{
    ByteSet {
        words: [0x0000_0000_ffff_fffe, 0x8000_0000_0000_0000, 0, 0],
    }
}

/// 0x21 to 0x7e.
#[tactic(auto, using(crate::proofs::ClassLemmas::graphics_are))]
pub(crate) fn graphics() -> ByteSet
    ensures { has_byte result ≡ is_graphic }
{
    ByteSet {
        words: [0xffff_fffe_0000_0000, 0x7fff_ffff_ffff_ffff, 0, 0],
    }
}

/// 0x20 to 0x7e.
#[tactic(auto, using(crate::proofs::ClassLemmas::printed_are))]
pub(crate) fn printed() -> ByteSet
    ensures { has_byte result ≡ is_printed }
{
    ByteSet {
        words: [0xffff_ffff_0000_0000, 0x7fff_ffff_ffff_ffff, 0, 0],
    }
}

/// 0x21 to 0x7e without ASCII letters and digits.
#[tactic(auto, using(crate::proofs::ClassLemmas::punctuation_are))]
pub(crate) fn punctuation() -> ByteSet
    ensures { has_byte result ≡ is_punctuation }
{
    ByteSet {
        words: [0xfc00_fffe_0000_0000, 0x7800_0001_f800_0001, 0, 0],
    }
}

/// 0x01 to 0xff: the bytes that texts have.
#[tactic(auto, using(crate::proofs::ClassLemmas::text_bytes_are))]
pub(crate) fn text_bytes() -> ByteSet
    ensures { has_byte result ≡ is_text_byte }
{
    ByteSet {
        words: [
            0xffff_ffff_ffff_fffe,
            0xffff_ffff_ffff_ffff,
            0xffff_ffff_ffff_ffff,
            0xffff_ffff_ffff_ffff,
        ],
    }
}
