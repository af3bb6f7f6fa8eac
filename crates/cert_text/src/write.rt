//! The writer of certificates.

ghost use Rattle.std.specs.Prelude.{◌≡◌, ◌++◌, ◌∷◌, [], OnOk, IfOk, codes, decimal};
ghost use Rattle.cert_value.specs.declared.keywords.Keyword.TheVariants as keyword;
ghost use Rattle.cert_value.specs.WellFormed.{upgraded};
ghost use Rattle.cert_value.specs.Text.{spelled, text_of, line_text, text, first_lines, second_lines, yes_lines, list_lines, body_lines, first_line, closed_lines, limit_lines, form_of, version_word, mode_word, form_word};

use auto_core::{List, Memory, Mode, Origin};
use cert_line::{form_word, mode_word, version_word};
use cert_value::{
    Body, Cert, Element, FirstStep, Form, Keyword, ListBody, Print, SecondStep, StepLine, YesBody,
    print_all, print_count, print_keyword, print_line,
};
use std::alloc::Global;

/// Writes the first log.
pub fn print_first_log(out: &mut List<u8>, steps: &[FirstStep], version: u32) -> Result<(), Memory>
    ensures { OnOk result (out.new ≡ out.old ++ text_of (first_lines version steps.now)) }
{
    print_count(out, Keyword::Log1, steps.len())?;
    print_all(out, steps, version)?;
    Ok(())
}

/// Writes the second log.
pub fn print_second_log(
    out: &mut List<u8>,
    steps: &[SecondStep],
    version: u32,
) -> Result<(), Memory>
    ensures { OnOk result (out.new ≡ out.old ++ text_of (second_lines version steps.now)) }
{
    print_count(out, Keyword::Log2, steps.len())?;
    print_all(out, steps, version)?;
    Ok(())
}

/// Writes the elements of a yes, their cover and their extensions.
pub fn print_elements(
    out: &mut List<u8>,
    elements: &[Element],
    cover: &[u32],
    steps: &[StepLine],
    version: u32,
) -> Result<(), Memory>
    ensures { OnOk result
        (out.new ≡ out.old ++ text_of (closed_lines elements.now cover.now steps.now)) }
{
    print_count(out, Keyword::Elements, elements.len())?;
    print_all(out, elements, version)?;
    print_line(out, Keyword::Cover, &[], cover)?;
    print_all(out, steps, version)?;
    Ok(())
}

/// Writes the evidence of inclusion.
fn print_yes(out: &mut List<u8>, yes: &YesBody, version: u32) -> Result<(), Memory>
    ensures { OnOk result (out.new ≡ out.old ++ text_of (yes_lines version yes.now)) }
{
    print_first_log(out, yes.first.as_slice(), version)?;
    print_second_log(out, yes.second.as_slice(), version)?;
    yes.order.print(out, version)?;
    print_elements(
        out,
        yes.elements.as_slice(),
        yes.cover.as_slice(),
        yes.steps.as_slice(),
        version,
    )?;
    Ok(())
}

/// Writes the elements of a list, with its limit.
fn print_origins(
    out: &mut List<u8>,
    limit: u32,
    elements: &[Origin],
    version: u32,
) -> Result<(), Memory>
    ensures { OnOk result (out.new ≡ out.old ++ text_of (limit_lines limit elements.now)) }
{
    print_line(out, Keyword::Limit, &[limit], &[])?;
    print_count(out, Keyword::Elements, elements.len())?;
    print_all(out, elements, version)?;
    Ok(())
}

/// Writes the evidence that a limit was met.
fn print_listing(out: &mut List<u8>, list: &ListBody, version: u32) -> Result<(), Memory>
    ensures { OnOk result (out.new ≡ out.old ++ text_of (list_lines version list.now)) }
{
    print_first_log(out, list.first.as_slice(), version)?;
    print_second_log(out, list.second.as_slice(), version)?;
    print_origins(out, list.limit, list.elements.as_slice(), version)?;
    Ok(())
}

/// Writes what stands between the line of sizes and the last line.
fn print_body(out: &mut List<u8>, body: &Body, version: u32) -> Result<(), Memory>
    ensures { OnOk result (out.new ≡ out.old ++ text_of (body_lines version body.now)) }
{
    match body {
        Body::Yes(yes) => print_yes(out, yes, version)?,
        Body::NoLasso(lasso) => {
            print_line(out, Keyword::Prefix, &[], lasso.prefix.as_slice())?;
            print_line(out, Keyword::Loop, &[], lasso.turn.as_slice())?;
        }
        Body::NoWord(word) => print_line(out, Keyword::Word, &[], word.as_slice())?,
        Body::Listing(list) => print_listing(out, list, version)?,
    }
    Ok(())
}

/// Writes the words before the mode in the first line.
fn print_format(out: &mut List<u8>, version: u32) -> Result<(), Memory>
    ensures { OnOk result
        (out.new ≡ out.old ++ (spelled keyword.RabitCert ++ 32 ∷ (spelled (version_word version) ++ 32 ∷ []))) }
{
    print_keyword(out, Keyword::RabitCert)?;
    out.push(b' ')?;
    print_keyword(out, version_word(version))?;
    out.push(b' ')?;
    Ok(())
}

/// Writes the first line.
fn print_first_line(out: &mut List<u8>, version: u32, mode: Mode, form: Form) -> Result<(), Memory>
    ensures { OnOk result (out.new ≡ out.old ++ line_text (first_line version mode form)) }
{
    print_format(out, version)?;
    print_keyword(out, mode_word(mode))?;
    out.push(b' ')?;
    print_line(out, form_word(form), &[], &[])?;
    Ok(())
}

/// Which form the body has.
fn form_of(body: &Body) -> Form
    ensures { result ≡ form_of body.now }
{
    match body {
        Body::Yes(_) => Form::Yes,
        Body::NoLasso(_) | Body::NoWord(_) => Form::No,
        Body::Listing(_) => Form::List,
    }
}

/// Writes the certificate in this version.
fn print_cert(out: &mut List<u8>, cert: &Cert, version: u32) -> Result<(), Memory>
    ensures { OnOk result (out.new ≡ out.old ++ text (record cert.now { version = version })) }
{
    print_first_line(out, version, cert.mode, form_of(&cert.body))?;
    print_line(
        out,
        Keyword::Sizes,
        &[cert.first_states, cert.second_states, cert.labels],
        &[],
    )?;
    print_body(out, &cert.body, version)?;
    print_line(out, Keyword::End, &[], &[])?;
    Ok(())
}

/// The certificate's text. It is a text of the format where `well_formed` holds.
pub fn write_cert(alloc: Global, cert: &Cert) -> Result<List<u8>, Memory>
    ensures text { IfOk result (λ bytes. bytes ≡ text cert.now) }
{
    let mut out = List::new(alloc);
    print_cert(&mut out, cert, cert.version)?;
    Ok(out)
}

/// The text of the certificate in version 2, without a copy of it.
pub fn write_upgraded(alloc: Global, cert: &Cert) -> Result<List<u8>, Memory>
    ensures text { IfOk result (λ bytes. bytes ≡ text (upgraded cert.now)) }
{
    let mut out = List::new(alloc);
    print_cert(&mut out, cert, 2)?;
    Ok(out)
}
