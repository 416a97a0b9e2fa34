ghost use Rattle.std.specs.Prelude.{◌≤◌, length};

use super::compare::{append, push, same};
use crate::slow::parse_slowly;
use fan_base::{Doc, Word, Words};
use query_expr::{Expr, ExprFault, Node, Token, holds, parse};
use std::alloc::Global;
use std::process::Abort;

// A token for each byte: a word of one byte, or a mark.
fn token_of<R: Abort>(rt: &R, byte: u8) -> Token {
    match byte {
        b'|' => Token::Bar,
        b'!' => Token::Bang,
        b'(' => Token::Left,
        b')' => Token::Right,
        _ => Token::Word(Word::new(&[byte]).expect(rt, "a word")),
    }
}

fn tokens_of<R: Abort>(rt: &R, alloc: Global, text: &[u8]) -> Vec<Token> {
    let mut tokens = Vec::new(alloc);
    for byte in text {
        push(rt, &mut tokens, token_of(rt, *byte));
    }
    tokens
}

// The tree with each sign before what it joins: `!` for Not, `&` for Both, `|` for Either.
fn show<R: Abort>(rt: &R, e: &Expr, out: &mut Vec<u8>) {
    match e.node() {
        Node::Word(word) => append(rt, out, word.as_bytes()),
        Node::Not(e) => {
            push(rt, out, b'!');
            show(rt, e, out);
        }
        Node::Both(a, b) => {
            push(rt, out, b'&');
            show(rt, a, out);
            show(rt, b, out);
        }
        Node::Either(a, b) => {
            push(rt, out, b'|');
            show(rt, a, out);
            show(rt, b, out);
        }
    }
}

fn shown<R: Abort>(rt: &R, alloc: Global, e: &Expr) -> Vec<u8> {
    let mut out = Vec::new(alloc);
    show(rt, e, &mut out);
    out
}

// What is parsed, without what is said of it.
fn parsed(alloc: Global, tokens: &[Token]) -> Result<Expr, ExprFault> {
    parse(alloc, tokens)
}

fn fault_of(alloc: Global, tokens: &[Token]) -> Option<ExprFault> {
    parsed(alloc, tokens).err()
}

fn tree_of<R: Abort>(rt: &R, alloc: Global, text: &[u8]) -> Expr {
    let tokens = tokens_of(rt, alloc, text);
    parsed(alloc, tokens.as_slice()).expect(rt, "an expression")
}

// The tree of a list of tokens has to be shown so.
fn check_tree<R: Abort>(rt: &R, alloc: Global, text: &[u8], tree: &[u8]) {
    let e = tree_of(rt, alloc, text);
    let found = shown(rt, alloc, &e);
    same(rt, found.as_slice(), tree);
}

fn check_fault<R: Abort>(rt: &R, alloc: Global, text: &[u8], fault: Option<ExprFault>) {
    let tokens = tokens_of(rt, alloc, text);
    same(rt, fault_of(alloc, tokens.as_slice()), fault);
}

// A token so many times, and one behind them.
fn check_repeated<R: Abort>(
    rt: &R,
    alloc: Global,
    token: u8,
    count: usize,
    last: u8,
    fault: Option<ExprFault>,
) {
    let mut text = vec![in alloc; token; count].expect(rt, "memory");
    push(rt, &mut text, last);
    check_fault(rt, alloc, text.as_slice(), fault);
}

// Lists of tokens, each with its tree.
const TREES: &[(&[u8], &[u8])] = &[
    (b"a", b"a"),
    (b"ab", b"&ab"),
    (b"abc", b"&&abc"),
    (b"a|b|c", b"||abc"),
    (b"ab|c", b"|&abc"),
    (b"a|bc", b"|a&bc"),
    (b"!ab", b"&!ab"),
    (b"!!a", b"!!a"),
    (b"!(ab)", b"!&ab"),
    (b"a(b|c)", b"&a|bc"),
    (b"((a))", b"a"),
    (b"a|(b|c)", b"|a|bc"),
    (b"a(bc)", b"&a&bc"),
    (b"!(a|!b)c|d", b"|&!|a!bcd"),
];

#[test]
fn trees_by_precedence(rt: HostRuntime) {
    let rt = &rt;
    for (text, tree) in TREES {
        check_tree(rt, rt.alloc(), text, tree);
    }
}

// Lists of tokens, each with its fault.
const FAULTS: &[(&[u8], ExprFault)] = &[
    (b"", ExprFault::Empty),
    (b"a|", ExprFault::Unclosed),
    (b")", ExprFault::Unexpected(0)),
    (b"|a", ExprFault::Unexpected(0)),
    (b"a)", ExprFault::Unexpected(1)),
    (b"()", ExprFault::Unexpected(1)),
    (b"!|a", ExprFault::Unexpected(1)),
    (b"a||b", ExprFault::Unexpected(2)),
    (b"(a|)", ExprFault::Unexpected(3)),
    (b"(a))(", ExprFault::Unexpected(3)),
    (b"(a", ExprFault::Unclosed),
    (b"a!", ExprFault::Unclosed),
    (b"a(", ExprFault::Unclosed),
];

#[test]
fn faults_at_their_places(rt: HostRuntime) {
    let rt = &rt;
    for (text, fault) in FAULTS {
        check_fault(rt, rt.alloc(), text, Some(*fault));
    }
}

// A token so many times, the one behind them, and the fault, if there is one.
const REPEATED: &[(u8, usize, u8, Option<ExprFault>)] = &[
    (b'!', 64, b'a', None),
    (b'!', 65, b'a', Some(ExprFault::TooDeep(64))),
    (b'(', 65, b'a', Some(ExprFault::TooDeep(64))),
    (b'a', 1_023, b'a', None),
    (b'a', 1_024, b')', Some(ExprFault::TooLong)),
];

#[test]
fn limits_of_depth_and_length(rt: HostRuntime) {
    let rt = &rt;
    for (token, count, last, fault) in REPEATED {
        check_repeated(rt, rt.alloc(), *token, *count, *last, *fault);
    }
}

// Lists of tokens, and whether they hold over the words a and c.
const TRUTHS: &[(&[u8], bool)] = &[
    (b"ab", false),
    (b"ac", true),
    (b"b|c", true),
    (b"!b", true),
    (b"!(ac)", false),
    (b"a!b", true),
];

fn a_and_c<R: Abort>(rt: &R, alloc: Global) -> Doc {
    let mut words = Words::new(alloc);
    for text in [b"a", b"c"] {
        let word = Word::new(text).expect(rt, "a word");
        words.push(word).expect(rt, "memory");
    }
    Doc { id: 1, words }
}

fn check_truth<R: Abort>(rt: &R, alloc: Global, text: &[u8], doc: &Doc, truth: bool) {
    let e = tree_of(rt, alloc, text);
    same(rt, holds(&e, doc), truth);
}

#[test]
fn truth_over_the_words_of_a_document(rt: HostRuntime) {
    let rt = &rt;
    let doc = a_and_c(rt, rt.alloc());
    for (text, truth) in TRUTHS {
        check_truth(rt, rt.alloc(), text, &doc, *truth);
    }
}

// The list of tokens with this number among those of a length: its digits to the base 5.
fn numbered_list<R: Abort>(rt: &R, alloc: Global, length: usize, number: usize) -> Vec<Token> {
    let mut rest = number;
    let mut tokens = Vec::new(alloc);
    for _ in 0..length {
        push(rt, &mut tokens, token_of(rt, b"a|!()"[rest % 5]));
        rest /= 5;
    }
    tokens
}

// What was found as the tree is shown, empty where there is none, and the fault.
fn outcome<R: Abort>(
    rt: &R,
    alloc: Global,
    found: Result<Expr, ExprFault>,
) -> (Vec<u8>, Option<ExprFault>) {
    match found {
        Ok(e) => (shown(rt, alloc, &e), None),
        Err(fault) => (Vec::new(alloc), Some(fault)),
    }
}

// What was found by tokens, what the plain program finds by them.
fn check_outcomes<R: Abort>(
    rt: &R,
    alloc: Global,
    tokens: &[Token],
    quick: Result<Expr, ExprFault>,
    slow: Result<Expr, ExprFault>,
) {
    let (quick, quick_fault) = outcome(rt, alloc, quick);
    let (slow, slow_fault) = outcome(rt, alloc, slow);
    same(
        rt,
        (tokens, quick.as_slice(), quick_fault),
        (tokens, slow.as_slice(), slow_fault),
    );
}

fn compare<R: Abort>(rt: &R, alloc: Global, tokens: &[Token], word: Word) {
    assert!(rt; tokens.len() <= 64);
    let slow = parse_slowly(alloc, tokens, word);
    check_outcomes(rt, alloc, tokens, parsed(alloc, tokens), slow);
}

fn compare_numbered<R: Abort>(rt: &R, alloc: Global, length: usize, number: usize) {
    let tokens = numbered_list(rt, alloc, length, number);
    let word = Word::new(b"z").expect(rt, "a word");
    compare(rt, alloc, tokens.as_slice(), word);
}

#[test]
fn short_lists_by_the_plain_program(rt: HostRuntime) {
    let rt = &rt;
    for (length, lists) in [(0, 1), (1, 5), (2, 25), (3, 125), (4, 625), (5, 3_125)] {
        for number in 0..lists {
            compare_numbered(rt, rt.alloc(), length, number);
        }
    }
}
