ghost use Rattle.std.specs.Prelude.{◌≡◌, codes, bytes_eq, map, position};
ghost use Rattle.c_typed.specs.Run as run;
ghost use Rattle.c_typed.specs.View as v;

use c_typed::Function;

fn is_main(function: &Function) -> bool
    ensures { result ≡ bytes_eq (v.function_of function.now).name (codes "main") }
{
    function.name.as_bytes() == b"main".as_slice()
}

fn place_of_main(functions: &[Function]) -> Option<usize>
    ensures { result ≡ position (λ f. bytes_eq f.name (codes "main")) functions.now }
{
    functions.iter().position(|function| is_main(function))
}

/// The number of `main` among a program's functions (C11 5.1.2.2.1), from 0; none where no function has this name.
pub fn main_number(functions: &[Function]) -> Option<usize>
    ensures { result ≡ run.main_number (map v.function_of functions.now) }
{
    place_of_main(functions)
}
