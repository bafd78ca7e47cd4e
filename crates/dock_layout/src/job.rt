// How a job crosses the door as bytes: its part, and one layout, read here alone.
ghost use Rattle.std.specs.Prelude.{◌≡◌};
ghost use Rattle.dock_layout.specs.Job.{job_in};

use dock_job::Job;

pub fn job_in(part: &[u8; 19], bytes: &[u8; 11]) -> Job
    ensures { result ≡ job_in part.now bytes.now }
{
    Job {
        part: part_layout::part_in(part),
        start: u32::from_le_bytes(numbers::bytes_at(bytes, 0)),
        end: u32::from_le_bytes(numbers::bytes_at(bytes, 4)),
        rate: u32::from(bytes[8]),
        supply: u32::from(bytes[9]),
        retries: u32::from(bytes[10]),
    }
}
