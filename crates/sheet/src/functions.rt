// The square root and the elementary functions.
use super::fault::Fault;
use super::parameters::Parameters;
use exports::Function;
use text_answers::Output;

// The function that a word names.
pub(crate) fn function_of(word: &[u8]) -> Option<Function> {
    match word {
        b"sqrt" => Some(Function::Sqrt),
        b"sin" => Some(Function::Sin),
        b"cos" => Some(Function::Cos),
        b"tan" => Some(Function::Tan),
        b"exp" => Some(Function::Exp),
        b"ln" => Some(Function::Ln),
        b"sinh" => Some(Function::Sinh),
        b"cosh" => Some(Function::Cosh),
        b"pow10" => Some(Function::Pow10),
        _ => None,
    }
}

pub(crate) fn answer_function(
    function: Function,
    parameters: Parameters,
    output: &mut Output,
) -> Result<(), Fault> {
    let x = parameters.only_float()?;
    output.put_float(exports::value(function, x));
    Ok(())
}
