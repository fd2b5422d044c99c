ghost use Rattle.std.specs.Prelude.{◌≡◌, ◌++◌, IfOk, string_bytes};
ghost use Rattle.task_gen.specs.Generated.{block_text, blocks_of, draw_text, generated, next_number, sign_of, test_text};
ghost use Rattle.task_gen.specs.Laws.{GeneratedIsShort};

use lv_base::Memory;
use std::alloc::Global;

const HEAD: &str =
    "extern unsigned int __VERIFIER_nondet_uint(void);\nvoid reach_error() {}\nint main() {\n";

/// How many blocks the source of a seed has.
pub fn blocks(seed: u32) -> u32
    ensures { result ≡ blocks_of seed }
{
    32 + seed % 32
}

// The number behind a number.
fn next(number: u32) -> u32
    ensures { result ≡ next_number number }
{
    ((1_664_525 * number as u64 + 1_013_904_223) % (1 << 32)) as u32
}

// What the test of a block compares by.
fn sign(seed: u32, block: u32) -> &'static str
    ensures { result.now ≡ sign_of seed block }
{
    if block == 0 && seed % 2 == 1 {
        ">="
    } else {
        ">"
    }
}

// Appends a block: a line that draws, and one that tests.
fn push_block(source: &mut String, block: u32, number: u32, sign: &str) -> Result<(), Memory>
    ensures { IfOk result (λ _. string_bytes source.new ≡ string_bytes source.old ++ block_text block number sign.now) }
{
    push_draw(source, block, number)?;
    push_test(source, block, number, sign)
}

fn push_draw(source: &mut String, block: u32, number: u32) -> Result<(), Memory>
    ensures { IfOk result (λ _. string_bytes source.new ≡ string_bytes source.old ++ draw_text block number) }
{
    writeln!(
        source,
        "  unsigned int x{block} = __VERIFIER_nondet_uint() & {number}u;"
    )?;
    Ok(())
}

fn push_test(source: &mut String, block: u32, number: u32, sign: &str) -> Result<(), Memory>
    ensures { IfOk result (λ _. string_bytes source.new ≡ string_bytes source.old ++ test_text block number sign.now) }
{
    writeln!(source, "  if (x{block} {sign} {number}u) reach_error();")?;
    Ok(())
}

/// The source of a seed.
pub fn generate(alloc: Global, seed: u32) -> Result<Vec<u8>, Memory>
    ensures { IfOk result (λ source. source.items ≡ generated seed) }
{
    let mut source = String::from_str(alloc, HEAD)?;
    let mut number = seed;
    for block in 0..blocks(seed) {
        number = next(number);
        push_block(&mut source, block, number, sign(seed, block))?;
    }
    source.push_str("}\n")?;
    Ok(source.into_bytes())
}

/// The source of a seed is far from the limit on its bytes.
pub fn generated_is_short()
    ensures { GeneratedIsShort }
{}
