ghost use Rattle.std.specs.Prelude.{◌≡◌, ◌↔◌, Err, true};
ghost use Rattle.tool_words.specs.Constants.{ConstantsAreStated};
ghost use Rattle.tool_words.specs.Grammar.{AreWords};
ghost use Rattle.tool_words.specs.Items.{items_of};
ghost use Rattle.tool_words.specs.Refusals.{HasWrong};
ghost use Rattle.tool_words.specs.Words.{items_read, word_texts};

/// A law on all words behind a tool's name, whatever the tool's letters: what
/// [`read_items`](crate::read_items) takes them to say, letter by letter and operand by operand, is
/// what their grammar says. It does nothing.
#[tactic(auto, using(crate::proofs::GrammarLemmas::words_mean))]
pub fn words_follow_grammar(_words: &[String])
    ensures { (tool : _) → (index : _) → (items : _)
        → (items_of tool index (word_texts _words.now) ≡ items)
        ↔ AreWords tool true index (word_texts _words.now) items }
{}

/// A law on all words behind a tool's name, whatever the tool's letters:
/// [`read_items`](crate::read_items) refuses them at an index for a reason exactly where this is
/// wrong in the word that has this index, and nothing that the words say before it is. It does
/// nothing.
pub fn refused_where_wrong(_words: &[String])
    ensures { (tool : _) → (index : _) → (wrong : _)
        → (items_read tool index (word_texts _words.now) ≡ Err wrong)
        ↔ HasWrong tool index (word_texts _words.now) wrong }
{}

/// A law: the constants are those of `specs/Constants.antt`. It does nothing.
pub fn constants_are_stated()
    ensures { ConstantsAreStated }
{}
