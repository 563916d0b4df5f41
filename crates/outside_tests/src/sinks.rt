//! Readers, sinks in memory and over streams, and the texts of faults.
use crate::scripts::check;
use std::alloc::AllocError;

/// At most one octet past the limit is read, and a read that breaks off has its cause.
const READS: &str = "\
endless 0 = TooLong 1
endless 5 = TooLong 6
endless 100000 = TooLong 100001
breaking memory = Memory
breaking permission = Failed
breaking invalid = Failed
breaking other = Failed
";

#[test]
fn reads_that_do_not_end(rt: HostRuntime) -> Result<(), AllocError> {
    check(&rt, &rt, READS)
}

/// The second write fails.
const IN_MEMORY: &str = "\
fail_put 2
put one  = Ok(())
put two  = Err(Failed)
put three = Ok(())
octets = [one three]
";

#[test]
fn a_sink_in_memory(rt: HostRuntime) -> Result<(), AllocError> {
    check(&rt, &rt, IN_MEMORY)
}

/// A stream with room for nine octets, and two with room for three, of which one breaks. Each put
/// is flushed. Whatever the error of a flush is, the cause is `Failed`.
const STREAMS: &str = "\
stream 9
send seven = Ok(())
taken = [seven]
stream 3
send seven = Err(Failed)
taken = [sev]
stream 3 breaks
send seven = Err(Failed)
taken = [sev]
stdout = Ok(())
stream 9
send one = Ok(())
flushed = 3
send two = Ok(())
flushed = 6
send = Ok(())
flushed = 6
stream 9 clogs
send seven = Err(Failed)
taken = [seven]
";

#[test]
fn streams_of_the_system(rt: HostRuntime) -> Result<(), AllocError> {
    check(&rt, &rt, STREAMS)
}

const TEXTS: &str = "\
fault file = the file could not be read
fault long_file = the file is too long
fault file_memory = no memory
fault sink = the octets could not be written
fault sink_memory = no memory
";

#[test]
fn faults_have_texts(rt: HostRuntime) -> Result<(), AllocError> {
    check(&rt, &rt, TEXTS)
}
