// The words of a line, which spaces and tabs part.
ghost use Rattle.std.specs.Prelude.{◌≡◌, ◌≤◌, IfOk, length, map, not, nat_le, nat_lt};
ghost use Rattle.std.specs.List.{prefix_len};
ghost use Rattle.pa_grammar.specs.Lexer.{most_text};
ghost use Rattle.pa_script.specs.Words as spec;

use std::alloc::{AllocError, Global};

fn is_blank(byte: u8) -> bool
    ensures { result ≡ spec.is_blank byte }
{
    byte == b' ' || byte == b'\t'
}

fn blanks_len(text: &[u8]) -> usize
    ensures value { result ≡ prefix_len spec.is_blank text.now }
    ensures bound { result ≤ length text.now }
{
    text.iter().take_while(|byte| is_blank(**byte)).count()
}

fn word_len(text: &[u8]) -> usize
    ensures value { result ≡ prefix_len spec.in_word text.now }
    ensures bound { result ≤ length text.now }
{
    text.iter().take_while(|byte| !is_blank(**byte)).count()
}

/// The first word, which has no bytes where there is none, and what follows it.
pub(crate) fn split_word(text: &[u8]) -> (&[u8], &[u8])
    ensures word { result.0.now ≡ spec.first_word text.now }
    ensures rest { result.1.now ≡ spec.after_word text.now }
    ensures shorter { length result.1.now ≤ length text.now }
{
    let text = &text[blanks_len(text)..];
    text.split_at(word_len(text))
}

/// All words, in order.
pub(crate) fn words_of<'a>(alloc: Global, text: &'a [u8]) -> Result<Vec<&'a [u8]>, AllocError>
    requires { length text.now ≤ most_text }
    ensures words { IfOk result (λ words. map (λ word. word.now) words.items ≡ spec.words_of text.now) }
    ensures short { IfOk result (λ words. spec.AreShort (map (λ word. word.now) words.items)) }
{
    text.split(|byte| is_blank(*byte))
        .filter(|word| !word.is_empty())
        .collect(alloc)
}
