// What the listing programs print for a file.
ghost use Rattle.demands.specs.Program.{RespondMet, RespondMolfileMet};

// The text of what reading a network file and listing its network say, at the front of the bytes lent.
pub fn respond(file: &[u8], out: &mut [u8]) -> usize
    ensures { RespondMet file.now out.old out.new result }
{
    report::respond(file, out)
}

// The same of a molfile.
pub fn respond_molfile(file: &[u8], out: &mut [u8]) -> usize
    ensures { RespondMolfileMet file.now out.old out.new result }
{
    report::respond_molfile(file, out)
}
