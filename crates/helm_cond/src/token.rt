// The tokens of a condition's text.
ghost use Rattle.std.specs.Prelude.{◌≡◌, ◌<◌, ◌≤◌, not, true, false, [], ◌∷◌, length, position, MatchOption, IfSome};
ghost use Rattle.std.specs.List.{position_or_len};
ghost use Rattle.moos_text.specs.Lines.{is_blank};
ghost use Rattle.moos_text.specs.Pairs.{is_quote};
ghost use Rattle.helm_cond.specs.Grammar.{is_operator_byte, is_plain, tokens_from, tokens_of};
ghost use Rattle.helm_cond.specs.Tokens.{token_said};

use moos_text::without_front_blanks;

// What a token is.
#[derive(Clone, Copy, Debug, PartialEq, Eq)]
pub(crate) enum TokenKind {
    Opening,
    Closing,
    Sign,
    Quoted,
    Unclosed,
    Word,
}

// A token, the bytes that it says, and what follows it.
#[derive(Clone, Copy)]
pub(crate) struct NextToken<'a> {
    pub kind: TokenKind,
    pub bytes: &'a [u8],
    pub rest: &'a [u8],
}

// The first token of a text; `None` exactly if there is none.
pub(crate) fn next_token(text: &[u8]) -> Option<NextToken<'_>>
    ensures token { MatchOption result
        (tokens_of text.now ≡ [])
        (λ next. tokens_of text.now ≡ token_said next.kind next.bytes.now ∷ tokens_of next.rest.now) }
    ensures shorter { IfSome result (λ next. length next.rest.now < length text.now) }
{
    let found = without_front_blanks(text);
    match found {
        [] => None,
        [byte, rest @ ..] => Some(token_at(*byte, rest, found)),
    }
}

// The token that begins with this byte, which is no blank, and these bytes behind it; `text` is both.
fn token_at<'a>(byte: u8, rest: &'a [u8], text: &'a [u8]) -> NextToken<'a>
    requires whole { text.now ≡ byte ∷ rest.now }
    requires found { is_blank byte ≡ false }
    ensures token { tokens_of text.now ≡ token_said result.kind result.bytes.now ∷ tokens_of result.rest.now }
    ensures shorter { length result.rest.now < length text.now }
{
    if byte == b'"' {
        quoted(rest)
    } else if byte == b'(' {
        NextToken {
            kind: TokenKind::Opening,
            bytes: &text[..0],
            rest,
        }
    } else if byte == b')' {
        NextToken {
            kind: TokenKind::Closing,
            bytes: &text[..0],
            rest,
        }
    } else if is_operator_byte(byte) {
        let (bytes, rest) = text.split_at(sign_len(text));
        NextToken {
            kind: TokenKind::Sign,
            bytes,
            rest,
        }
    } else {
        let (bytes, rest) = text.split_at(word_len(text));
        NextToken {
            kind: TokenKind::Word,
            bytes,
            rest,
        }
    }
}

// The text that ends at the next quote, behind the one that opens it.
fn quoted(text: &[u8]) -> NextToken<'_>
    ensures token { tokens_from true text.now ≡ token_said result.kind result.bytes.now ∷ tokens_of result.rest.now }
    ensures within { length result.rest.now ≤ length text.now }
{
    let len = bytes_before_quote(text);
    if len < text.len() {
        NextToken {
            kind: TokenKind::Quoted,
            bytes: &text[..len],
            rest: &text[len + 1..],
        }
    } else {
        NextToken {
            kind: TokenKind::Unclosed,
            bytes: &text[..0],
            rest: &text[..0],
        }
    }
}

// Where the first quote is.
fn first_quote(text: &[u8]) -> Option<usize>
    ensures { result ≡ position is_quote text.now }
{
    text.iter().position(|&byte| byte == b'"')
}

// How many bytes are before the first quote.
#[tactic(auto, using(moos_text::proofs::WordLemmas::position_or_len_of))]
fn bytes_before_quote(text: &[u8]) -> usize
    ensures { result ≡ position_or_len is_quote text.now }
{
    first_quote(text).unwrap_or(text.len())
}

// Where the first byte is that is in no operator.
fn sign_end(text: &[u8]) -> Option<usize>
    ensures { result ≡ position (λ byte. not (is_operator_byte byte)) text.now }
{
    text.iter().position(|&byte| !is_operator_byte(byte))
}

// How many bytes in front are in an operator.
#[tactic(auto, using(moos_text::proofs::WordLemmas::position_or_len_of))]
fn sign_len(text: &[u8]) -> usize
    ensures { result ≡ position_or_len (λ byte. not (is_operator_byte byte)) text.now }
{
    sign_end(text).unwrap_or(text.len())
}

// Where the first byte is that is in no word.
fn word_end(text: &[u8]) -> Option<usize>
    ensures { result ≡ position (λ byte. not (is_plain byte)) text.now }
{
    text.iter().position(|&byte| !is_plain(byte))
}

// How many bytes in front are in a word.
#[tactic(auto, using(moos_text::proofs::WordLemmas::position_or_len_of))]
fn word_len(text: &[u8]) -> usize
    ensures { result ≡ position_or_len (λ byte. not (is_plain byte)) text.now }
{
    word_end(text).unwrap_or(text.len())
}

// Each is the definition of its name.
fn is_operator_byte(byte: u8) -> bool
    ensures { result ≡ is_operator_byte byte }
{
    byte == b'=' || byte == b'!' || byte == b'<' || byte == b'>'
}

fn is_plain(byte: u8) -> bool
    ensures { result ≡ is_plain byte }
{
    !(byte == b' '
        || byte == b'\t'
        || byte == b'"'
        || byte == b'('
        || byte == b')'
        || is_operator_byte(byte))
}
