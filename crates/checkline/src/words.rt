//! Piles as words.
ghost use Rattle.std.specs.Prelude.{◌≡◌, IfOk};
ghost use Rattle.std.specs.Option.{option_map};
ghost use Rattle.checkline.specs.Spelled.{bottom_in, layer_in, layer_around, onto, bare, pile_in};

use crate::bottom::Bottom;
use crate::layers::Layer;
use std::alloc::{AllocError, Global};
use std::str;
use syntax::parse::split_at_first;

// The greatest number of layers that a request may name.
const MOST_LAYERS: usize = 8;

// The layers of the pile that a word spells, the outermost first, and its bottom.
pub fn parse_pile(heap: Global, word: &[u8]) -> Result<Option<(Vec<Layer>, Bottom)>, AllocError>
    ensures { IfOk result (λ o. option_map (λ p. (p.0.items, p.1)) o ≡ pile_in word.now) }
{
    let mut layers = Vec::new(heap);
    let mut rest = word;
    for _ in 0..MOST_LAYERS {
        match parse_layer(rest) {
            Some((layer, inside)) => {
                layers.push(layer)?;
                rest = inside;
            }
            None => return Ok(over_bottom(layers, rest)),
        }
    }
    Ok(over_bottom(layers, rest))
}

// Layers over the bottom that a word names.
fn over_bottom(layers: Vec<Layer>, word: &[u8]) -> Option<(Vec<Layer>, Bottom)>
    ensures { option_map (λ p. (p.0.items, p.1)) result ≡ onto layers.items (bare word.now) }
{
    Some((layers, parse_bottom(word)?))
}

// The outermost layer of a word, and what stands in its parentheses.
fn parse_layer(word: &[u8]) -> Option<(Layer, &[u8])>
    ensures { option_map (λ p. (p.0, p.1.now)) result ≡ layer_around word.now }
{
    let (name, rest) = split_at_first(word, b'(')?;
    let layer = layer_named(name)?;
    let [inside @ .., last] = rest else {
        return None;
    };
    if *last == b')' {
        Some((layer, inside))
    } else {
        None
    }
}

fn layer_named(name: &[u8]) -> Option<Layer>
    ensures { result ≡ layer_in name.now }
{
    let Ok(name) = str::from_utf8(name) else {
        return None;
    };
    match name {
        "array" => Some(Layer::Array),
        "range" => Some(Layer::Range),
        _ => None,
    }
}

// The bottom that a word names.
fn parse_bottom(word: &[u8]) -> Option<Bottom>
    ensures { result ≡ bottom_in word.now }
{
    let Ok(word) = str::from_utf8(word) else {
        return None;
    };
    match word {
        "int4" => Some(Bottom::Int4),
        "int8" => Some(Bottom::Int8),
        "text" => Some(Bottom::Text),
        "point" => Some(Bottom::Point),
        "box" => Some(Bottom::Box),
        "path" => Some(Bottom::Path),
        "varbit" => Some(Bottom::Varbit),
        "hstore" => Some(Bottom::Hstore),
        "inet" => Some(Bottom::Inet),
        _ => None,
    }
}
