//! Values from outside: texts with their tokens.
//! The contracts cover all other texts.

use dsn_tokens::{Lexer, Mark, TokenFault};

/// Whether the mark is that bracket, or the word of that text.
fn is_mark(mark: &Mark, text: &str) -> bool {
    match mark {
        Mark::Left => text == "(",
        Mark::Right => text == ")",
        Mark::Word(word) => word.as_slice() == text.as_bytes(),
    }
}

/// Whether the next token stands at that place, and is that bracket or word.
fn is_next(lexer: &mut Lexer, at: u64, text: &str) -> bool {
    match lexer.next() {
        Ok(Some(token)) => token.at == at && is_mark(&token.mark, text),
        _ => false,
    }
}

/// Whether no token follows: the text ends, or a quote is open at that place.
fn is_end(lexer: &mut Lexer, quote: Option<u64>) -> bool {
    match lexer.next() {
        Ok(None) => quote.is_none(),
        Err(TokenFault::QuoteOpen { at }) => quote == Some(at),
        _ => false,
    }
}

#[test]
fn tokens_of_a_small_text_have_their_places(rt: HostRuntime) {
    let mut lexer = Lexer::new(rt.alloc(), "\n # (\n(x\"a b\"y)".as_bytes());
    assert!(rt; is_next(&mut lexer, 6, "(") && is_next(&mut lexer, 7, "xa by"));
    assert!(rt; is_next(&mut lexer, 14, ")") && is_end(&mut lexer, None));
}

#[test]
fn an_open_quote_is_a_fault_again_and_again(rt: HostRuntime) {
    let mut lexer = Lexer::new(rt.alloc(), "a b\"".as_bytes());
    assert!(rt; is_next(&mut lexer, 0, "a"));
    assert!(rt; is_end(&mut lexer, Some(3)) && is_end(&mut lexer, Some(3)));
}
