//! Proves that the numbers of a world, and those of a layout's symbols, are in their types' ranges. The definitions use unbounded
//! numbers, and do not know this.
ghost use Rattle.std.specs.Prelude.{All, ℕ, ℤ, ◌<◌};
ghost use Rattle.std.specs.Int.{w64};
ghost use Rattle.std.specs.Int.RustNames.{FitsSigned};
ghost use Rattle.wild_bound.specs.Premises.{AnswerNumbers, SymbolNumbers, WorldNumbers};

use wild_loader::{Answer, World};
use wild_types::{Layout, Symbol};

fn bytes_fit(bytes: &[u8])
    ensures { All (λ (b : ℕ). b < 256) bytes.now }
{}

fn answer_fits(answer: &Answer)
    ensures { AnswerNumbers answer.now }
{
    let _address = answer.address;
    let _module = answer.module;
    let _offset = answer.offset;
    let _size = answer.size;
    bytes_fit(answer.bytes.as_slice());
}

fn answers_fit(answers: &[Answer])
    ensures { All AnswerNumbers answers.now }
{
    for answer in answers {
        answer_fits(answer);
    }
}

fn distance_fits(pair: &(u64, i64))
    ensures { FitsSigned w64 pair.now.1 }
{
    let _distance = pair.1;
}

fn distances_fit(modules: &[(u64, i64)])
    ensures { All (λ (m : ℕ × ℤ). FitsSigned w64 m.1) modules.now }
{
    for pair in modules {
        distance_fits(pair);
    }
}

/// The numbers of a world are in their types' ranges.
pub fn world_numbers_fit(world: &World)
    ensures { WorldNumbers world.now }
{
    let _own_module = world.own_module;
    answers_fit(world.symbols.as_slice());
    distances_fit(world.modules.as_slice());
}

fn symbol_fits(symbol: &Symbol)
    ensures { SymbolNumbers symbol.now }
{
    let _info = symbol.info;
    let _size = symbol.size;
}

fn symbols_fit(symbols: &[Symbol])
    ensures { All SymbolNumbers symbols.now }
{
    for symbol in symbols {
        symbol_fits(symbol);
    }
}

/// The types and the sizes of a layout's symbols are in their types' ranges.
pub fn symbol_numbers_fit(layout: &Layout)
    ensures { All SymbolNumbers layout.now.symbols }
{
    symbols_fit(layout.symbols.as_slice());
}
