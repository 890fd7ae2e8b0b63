ghost use Rattle.std.specs.Prelude.{◌≡◌, ◌^◌, [], ◌∷◌, IfOk};
ghost use Rattle.rv_model.specs.declared.limits.TheConstants.{PRIVATE_START};
ghost use Rattle.rv_model.specs.Image.{image_parts};
ghost use Rattle.ce_daemon.specs.Boxes.{AreBoxes};
ghost use Rattle.ce_rows.specs.RowEntries.{HasMadeRowEntries};
ghost use Rattle.ce_rows.specs.Rows.{row_of, program};

use crate::WorkedRow;
use ce_daemon::Homed;
use ce_machine::Machine;
use rv_image::Image;
use rv_model::PRIVATE_START;
use std::alloc::Global;
use std::test::Fail;

// The bytes of the rows' image, four for each instruction.
const PROGRAM: [u8; 52] = [
    0x93, 0x08, 0xE0, 0x00, // a7 = 14: note
    0x13, 0x05, 0xA0, 0x02, // a0 = 42
    0x73, 0x00, 0x00, 0x00, // ecall
    0x93, 0x08, 0x10, 0x00, // a7 = 1: xmalloc
    0x13, 0x05, 0x10, 0x00, // a0 = 1
    0x73, 0x00, 0x00, 0x00, // ecall
    0x93, 0x08, 0x40, 0x00, // a7 = 4: xsend
    0x93, 0x05, 0xF0, 0xFF, // a1 = HOST
    0x73, 0x00, 0x00, 0x00, // ecall
    0x93, 0x08, 0x60, 0x00, // a7 = 6: xrecv
    0x73, 0x00, 0x00, 0x00, // ecall
    0x73, 0x00, 0x00, 0x00, // ecall
    0x73, 0x00, 0x00, 0x00, // ecall
];

// The rows' image.
fn image(alloc: Global) -> Result<Image, Fail>
    ensures { IfOk result (λ image. image ≡ image_parts PRIVATE_START program 0) }
{
    let mut bytes = Vec::new(alloc);
    bytes.extend_from_slice(&PROGRAM)?;
    match Image::of_parts(PRIVATE_START, bytes, 0) {
        Ok(image) => Ok(image),
        Err(_) => Err(Fail::from("no image")),
    }
}

// The images of a machine.
fn images_of_rows(alloc: Global) -> Result<Vec<Image>, Fail>
    ensures { IfOk result (λ images. images.items ≡ image_parts PRIVATE_START program 0 ∷ []) }
{
    let mut images = Vec::new(alloc);
    images.push(image(alloc)?)?;
    Ok(images)
}

// The dimension of a row's machine.
fn dim_of(row: WorkedRow) -> u32
    ensures { result ≡ (row_of row).parts.dim }
{
    match row {
        WorkedRow::NextOwner | WorkedRow::Replies | WorkedRow::Hearings => 0,
        WorkedRow::FirstCube | WorkedRow::WaitingMail => 2,
        WorkedRow::GreatestCube => 6,
    }
}

// How many users a row's machine has.
fn users_of(row: WorkedRow) -> u32
    ensures { result ≡ (row_of row).parts.users }
{
    match row {
        WorkedRow::FirstCube | WorkedRow::NextOwner | WorkedRow::Replies => 2,
        WorkedRow::GreatestCube => 8,
        WorkedRow::Hearings | WorkedRow::WaitingMail => 1,
    }
}

// A row's machine, of which nothing was asked yet.
pub(crate) fn open<N: Homed>(
    alloc: Global,
    row: WorkedRow,
    boxes: Vec<N>,
) -> Result<Machine<N>, Fail>
    requires { AreBoxes N.home N.clean (2 ^ (row_of row).parts.dim) (λ node. node) boxes.items }
    ensures { IfOk result (λ machine. HasMadeRowEntries (row_of row) 0 machine) }
{
    let dim = dim_of(row);
    let users = users_of(row);
    let images = images_of_rows(alloc)?;
    let machine = Machine::new(alloc, dim, users, images, boxes)?;
    Ok(machine)
}
